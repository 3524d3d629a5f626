//! Reading the words of the command line as an order.
ghost use Rattle.std.specs.Prelude.{IfOk, ◌∷◌};
ghost use Rattle.std.specs.Str.{chars};
ghost use Rattle.jfr_words.specs.Words.{order_of, summary_of, metadata_of, assembly_of, receipt_of, verification_of, building_of, IsRead, IsUsableOrder};

use crate::filter::read_filter;
use crate::json::take_json;
use crate::mask::read_mask;
use crate::name::{read_only_name, read_three_names, read_two_names};
use crate::print::read_print;
use crate::sample::read_sample;
use crate::scrub::read_scrub;
use crate::split::read_split;
use crate::stacks::read_stacks;
use crate::unread::UnreadWords;
use crate::{Order, WordsFault};
use jfr_outside::Words;
use std::alloc::Global;

/// The order that the words give.
pub fn read_words(alloc: Global, words: &Words) -> Result<Order, WordsFault>
    ensures read { IsRead (order_of words.now) result (λ order. order) }
    ensures usable { IfOk result IsUsableOrder }
{
    let mut unread = UnreadWords::all(words);
    match unread.take() {
        Some(command) => read_command(alloc, command, &mut unread),
        None => Err(WordsFault::Usage),
    }
}

/// Reads the words after a command.
fn read_command(
    alloc: Global,
    command: &str,
    unread: &mut UnreadWords<'_>,
) -> Result<Order, WordsFault>
    ensures { IsRead (order_of (chars command.now ∷ unread.old)) result (λ order. order) }
{
    match command {
        "print" => read_print(alloc, unread),
        "summary" => read_summary(alloc, unread),
        "metadata" => read_metadata(alloc, unread),
        "scrub" => read_scrub(alloc, unread),
        "disassemble" => read_split(alloc, unread),
        "assemble" => read_assembly(alloc, unread),
        "sample" => read_sample(unread),
        "receipt" => read_receipt(alloc, unread),
        "verify" => read_verification(alloc, unread),
        "stacks" => read_stacks(alloc, unread),
        "build" => read_building(alloc, unread),
        "mask" => read_mask(alloc, unread),
        _ => Err(WordsFault::Usage),
    }
}

fn read_summary(alloc: Global, unread: &mut UnreadWords<'_>) -> Result<Order, WordsFault>
    ensures { IsRead (summary_of unread.old) result (λ order. order) }
{
    let json = take_json(unread);
    let file = read_only_name(alloc, unread)?;
    Ok(Order::Summary { json, file })
}

fn read_metadata(alloc: Global, unread: &mut UnreadWords<'_>) -> Result<Order, WordsFault>
    ensures { IsRead (metadata_of unread.old) result (λ order. order) }
{
    let json = take_json(unread);
    let file = read_only_name(alloc, unread)?;
    Ok(Order::Metadata { json, file })
}

fn read_assembly(alloc: Global, unread: &mut UnreadWords<'_>) -> Result<Order, WordsFault>
    ensures { IsRead (assembly_of unread.old) result (λ order. order) }
{
    let (folder, output) = read_two_names(alloc, unread)?;
    Ok(Order::Assemble { folder, output })
}

fn read_receipt(alloc: Global, unread: &mut UnreadWords<'_>) -> Result<Order, WordsFault>
    ensures { IsRead (receipt_of unread.old) result (λ order. order) }
{
    let filter = read_filter(alloc, unread)?;
    let (input, receipt) = read_two_names(alloc, unread)?;
    Ok(Order::Receipt {
        filter,
        input,
        receipt,
    })
}

fn read_verification(alloc: Global, unread: &mut UnreadWords<'_>) -> Result<Order, WordsFault>
    ensures { IsRead (verification_of unread.old) result (λ order. order) }
{
    let filter = read_filter(alloc, unread)?;
    let (input, output, receipt) = read_three_names(alloc, unread)?;
    Ok(Order::Verify {
        filter,
        input,
        output,
        receipt,
    })
}

fn read_building(alloc: Global, unread: &mut UnreadWords<'_>) -> Result<Order, WordsFault>
    ensures { IsRead (building_of unread.old) result (λ order. order) }
{
    let (text, output) = read_two_names(alloc, unread)?;
    Ok(Order::Build { text, output })
}
