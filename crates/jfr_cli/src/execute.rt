//! Calls the command of each order. A function that doesn't use the place or the sink still takes it, so that its
//! contract can say that it is unchanged; the parameter's name then begins with `_`.
ghost use Rattle.jfr_plan.specs.Effects.{outside};
ghost use Rattle.jfr_words.specs.Words.{IsUsableOrder, file_name};
ghost use Rattle.jfr_words.specs.declared.order.Order.TheVariants as orders;
ghost use Rattle.std.specs.Prelude.{◌≡◌, ◌≤◌, false, option_map, true};
ghost use Rattle.jfr_split.specs.Parts.{IsUsable};
ghost use Rattle.jfr_cli.specs.Runs.{Carries, CarriesTo};
ghost use Rattle.jfr_cli.specs.Texts.{IsWritten};
ghost use Rattle.jfr_cli.specs.Works.{verified_line};

use crate::answer::Answer;
use jfr_build::{BuildEnding, build_stream};
use jfr_filter::{Filter, Patterns};
use jfr_header::Ending;
use jfr_mask::{MaskFiles, MaskRule, mask_stream};
use jfr_outside::{NoMemory, Place, Sink, Text};
use jfr_receipt::receipt_stream;
use jfr_renumber::renumber_stream;
use jfr_report::{metadata_stream, print_stream, sample_text, stacks_stream, summary_stream};
use jfr_scrub::scrub_stream;
use jfr_split::SplitRule;
use jfr_verify::{Verdict, verify_stream};
use jfr_words::Order;
use std::alloc::Global;

/// Executes an order over a place and the output sink.
pub(crate) fn execute<P: Place, O: Sink>(
    alloc: Global,
    place: &mut P,
    out: &mut O,
    order: &Order,
) -> Answer
    requires usable { IsUsableOrder order.now }
    ensures { CarriesTo order.now result (outside (P.state place.old) (O.state out.old)) (outside (P.state place.new) (O.state out.new)) }
{
    match order {
        Order::Print {
            filter,
            depth,
            json,
            file,
        } => {
            let events = Events {
                file,
                filter,
                depth: *depth,
                json: *json,
            };
            Answer::Ended(print(alloc, place, out, &events))
        }
        Order::Summary { json, file } => Answer::Ended(summary(alloc, place, out, *json, file)),
        Order::Metadata { json, file } => Answer::Ended(metadata(alloc, place, out, *json, file)),
        Order::Scrub {
            filter,
            renumber: new_keys,
            input,
            output,
        } => {
            let files = Files { input, output };
            if *new_keys {
                Answer::Ended(renumber(alloc, place, out, filter, &files))
            } else {
                Answer::Ended(scrub(alloc, place, out, filter, &files))
            }
        }
        Order::Disassemble { file, rule } => Answer::Ended(disassemble(
            alloc, place, out, file, rule,
        )),
        Order::Assemble { folder, output } => Answer::Ended(assemble(
            alloc, place, out, folder, output,
        )),
        Order::Sample { seed, events } => {
            Answer::Ended(sample(alloc, place, out, *seed, *events))
        }
        Order::Receipt {
            filter,
            input,
            receipt: output,
        } => {
            let files = Files { input, output };
            Answer::Ended(receipt(alloc, place, out, filter, &files))
        }
        Order::Verify {
            filter,
            input,
            output,
            receipt,
        } => {
            let files = CheckedFiles {
                input,
                output,
                receipt,
            };
            verify(alloc, place, out, filter, &files)
        }
        Order::Stacks { filter, file } => Answer::Ended(stacks(alloc, place, out, filter, file)),
        Order::Build { text, output } => build(alloc, place, out, text, output),
        Order::Mask {
            filter,
            strings,
            except,
            known,
            table,
            input,
            output,
        } => {
            let rule = MaskRule {
                filter,
                strings,
                except: except.as_ref(),
            };
            let files = MaskedFiles {
                input,
                output,
                known: known.as_ref(),
                table: table.as_ref(),
            };
            Answer::Ended(mask(alloc, place, out, rule, &files))
        }
    }
}

/// What `print` shows: the kept events of a file, and how.
#[derive(Clone, Copy)]
struct Events<'a> {
    file: &'a Text,
    filter: &'a Filter,
    depth: u8,
    json: bool,
}

fn print<P: Place, O: Sink>(
    alloc: Global,
    place: &mut P,
    out: &mut O,
    events: &Events<'_>,
) -> Ending
    requires depth { events.now.depth ≤ 8 }
    ensures { Carries (orders.Print events.now.filter.now events.now.depth events.now.json events.now.file.now) result (outside (P.state place.old) (O.state out.old)) (outside (P.state place.new) (O.state out.new)) }
{
    let Events {
        file,
        filter,
        depth,
        json,
    } = *events;
    print_stream(alloc, place, out, file.as_str(), filter, depth, json)
}

fn summary<P: Place, O: Sink>(
    alloc: Global,
    place: &mut P,
    out: &mut O,
    json: bool,
    file: &Text,
) -> Ending
    ensures { Carries (orders.Summary json file.now) result (outside (P.state place.old) (O.state out.old)) (outside (P.state place.new) (O.state out.new)) }
{
    summary_stream(alloc, place, out, file.as_str(), json)
}

fn metadata<P: Place, O: Sink>(
    alloc: Global,
    place: &mut P,
    out: &mut O,
    json: bool,
    file: &Text,
) -> Ending
    ensures { Carries (orders.Metadata json file.now) result (outside (P.state place.old) (O.state out.old)) (outside (P.state place.new) (O.state out.new)) }
{
    metadata_stream(alloc, place, out, file.as_str(), json)
}

fn stacks<P: Place, O: Sink>(
    alloc: Global,
    place: &mut P,
    out: &mut O,
    filter: &Filter,
    file: &Text,
) -> Ending
    ensures { Carries (orders.Stacks filter.now file.now) result (outside (P.state place.old) (O.state out.old)) (outside (P.state place.new) (O.state out.new)) }
{
    stacks_stream(alloc, place, out, file.as_str(), filter)
}

/// The names of the input, and of the file that is made of it.
#[derive(Clone, Copy)]
struct Files<'a> {
    input: &'a Text,
    output: &'a Text,
}

fn scrub<P: Place, O: Sink>(
    alloc: Global,
    place: &mut P,
    _out: &mut O,
    filter: &Filter,
    files: &Files<'_>,
) -> Ending
    ensures { Carries (orders.Scrub filter.now false files.now.input.now files.now.output.now) result (outside (P.state place.old) (O.state _out.old)) (outside (P.state place.new) (O.state _out.new)) }
{
    let Files { input, output } = *files;
    scrub_stream(alloc, place, input.as_str(), output.as_str(), filter)
}

fn renumber<P: Place, O: Sink>(
    alloc: Global,
    place: &mut P,
    _out: &mut O,
    filter: &Filter,
    files: &Files<'_>,
) -> Ending
    ensures { Carries (orders.Scrub filter.now true files.now.input.now files.now.output.now) result (outside (P.state place.old) (O.state _out.old)) (outside (P.state place.new) (O.state _out.new)) }
{
    let Files { input, output } = *files;
    renumber_stream(alloc, place, input.as_str(), output.as_str(), filter)
}

fn receipt<P: Place, O: Sink>(
    alloc: Global,
    place: &mut P,
    _out: &mut O,
    filter: &Filter,
    files: &Files<'_>,
) -> Ending
    ensures { Carries (orders.Receipt filter.now files.now.input.now files.now.output.now) result (outside (P.state place.old) (O.state _out.old)) (outside (P.state place.new) (O.state _out.new)) }
{
    let Files { input, output } = *files;
    receipt_stream(alloc, place, input.as_str(), output.as_str(), filter)
}

/// The names of the recording, of its masked recording, of the file of known texts, and of the table.
#[derive(Clone, Copy)]
pub struct MaskedFiles<'a> {
    pub input: &'a Text,
    pub output: &'a Text,
    pub known: Option<&'a Text>,
    pub table: Option<&'a Text>,
}

fn mask<P: Place, O: Sink>(
    alloc: Global,
    place: &mut P,
    _out: &mut O,
    rule: MaskRule<'_>,
    files: &MaskedFiles<'_>,
) -> Ending
    ensures { Carries (orders.Mask rule.entry.filter.now rule.entry.strings.now (option_map (λ p. p.now) rule.entry.except) (option_map (λ t. t.now) files.now.known) (option_map (λ t. t.now) files.now.table) files.now.input.now files.now.output.now) result (outside (P.state place.old) (O.state _out.old)) (outside (P.state place.new) (O.state _out.new)) }
{
    let files = MaskFiles {
        input: files.input.as_str(),
        output: files.output.as_str(),
        known: name_of(files.known),
        table: name_of(files.table),
    };
    mask_stream(alloc, place, rule, files)
}

/// The name, if there is one.
fn name_of(name: Option<&Text>) -> Option<&str>
    ensures { option_map (λ n. n.now) result ≡ option_map (λ t. file_name t.now) name.entry }
{
    match name {
        Some(name) => Some(name.as_str()),
        None => None,
    }
}

/// The names of the original, of its scrub, and of the file with the receipts.
#[derive(Clone, Copy)]
struct CheckedFiles<'a> {
    input: &'a Text,
    output: &'a Text,
    receipt: &'a Text,
}

fn verify<P: Place, O: Sink>(
    alloc: Global,
    place: &mut P,
    out: &mut O,
    filter: &Filter,
    files: &CheckedFiles<'_>,
) -> Answer
    ensures { CarriesTo (orders.Verify filter.now files.now.input.now files.now.output.now files.now.receipt.now) result (outside (P.state place.old) (O.state out.old)) (outside (P.state place.new) (O.state out.new)) }
{
    let (input, output) = (files.input.as_str(), files.output.as_str());
    match verify_stream(alloc, place, input, output, files.receipt.as_str(), filter) {
        Verdict::Verified(count) => Answer::Ended(write_verified(alloc, out, count)),
        Verdict::Doubted { chunk, doubt } => Answer::Doubted { chunk, doubt },
        Verdict::Refused(refusal) => Answer::Ended(Ending::Refused(refusal)),
        Verdict::ReadFault => Answer::Ended(Ending::ReadFault),
        Verdict::Memory => Answer::Ended(Ending::Memory),
    }
}

/// Writes the line that says how many chunks are verified.
fn write_verified<O: Sink>(alloc: Global, out: &mut O, count: u64) -> Ending
    ensures { IsWritten (verified_line count) result (O.state out.old) (O.state out.new) }
{
    match format!(in alloc; "verified {count}\n") {
        Ok(line) => write_only_text(out, line.as_str()),
        Err(_) => Ending::Memory,
    }
}

fn write_only_text<O: Sink>(out: &mut O, text: &str) -> Ending
    ensures { IsWritten text.now result (O.state out.old) (O.state out.new) }
{
    match out.write(text.as_bytes()) {
        Ok(()) => Ending::Done,
        Err(fault) => Ending::of_write(fault),
    }
}

fn build<P: Place, O: Sink>(
    alloc: Global,
    place: &mut P,
    _out: &mut O,
    text: &Text,
    output: &Text,
) -> Answer
    ensures { CarriesTo (orders.Build text.now output.now) result (outside (P.state place.old) (O.state _out.old)) (outside (P.state place.new) (O.state _out.new)) }
{
    match build_stream(alloc, place, text.as_str(), output.as_str()) {
        BuildEnding::Done => Answer::Ended(Ending::Done),
        BuildEnding::Refused { line, reason } => Answer::Unbuilt { line, reason },
        BuildEnding::ReadFault => Answer::Ended(Ending::ReadFault),
        BuildEnding::WriteFault => Answer::Ended(Ending::WriteFault),
        BuildEnding::Memory => Answer::Ended(Ending::Memory),
    }
}

fn disassemble<P: Place, O: Sink>(
    alloc: Global,
    place: &mut P,
    _out: &mut O,
    file: &Text,
    rule: &SplitRule,
) -> Ending
    requires usable { IsUsable rule.now }
    ensures { Carries (orders.Disassemble file.now rule.now) result (outside (P.state place.old) (O.state _out.old)) (outside (P.state place.new) (O.state _out.new)) }
{
    jfr_split::disassemble(alloc, place, file.as_str(), rule)
}

fn assemble<P: Place, O: Sink>(
    alloc: Global,
    place: &mut P,
    _out: &mut O,
    folder: &Text,
    output: &Text,
) -> Ending
    ensures { Carries (orders.Assemble folder.now output.now) result (outside (P.state place.old) (O.state _out.old)) (outside (P.state place.new) (O.state _out.new)) }
{
    jfr_split::assemble(alloc, place, folder.as_str(), output.as_str())
}

fn sample<P: Place, O: Sink>(
    alloc: Global,
    _place: &mut P,
    out: &mut O,
    seed: u32,
    events: u32,
) -> Ending
    requires some { 1 ≤ events }
    requires most { events ≤ 1000000 }
    ensures { Carries (orders.Sample seed events) result (outside (P.state _place.old) (O.state out.old)) (outside (P.state _place.new) (O.state out.new)) }
{
    let text = match sample_text(alloc, seed, events) {
        Ok(text) => text,
        Err(NoMemory) => return Ending::Memory,
    };
    write_only_text(out, text.as_str())
}
