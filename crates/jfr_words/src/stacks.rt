//! The words after `stacks`.
ghost use Rattle.jfr_filter.specs.Filters.{nothing_given};
ghost use Rattle.jfr_words.specs.Stacks.{stacks_from};
ghost use Rattle.jfr_words.specs.Words.{IsRead};

use crate::filter_option::{FilterOption, give_option, shown_option_of};
use crate::name::read_only_name;
use crate::unread::{Named, UnreadWords};
use crate::{Order, WordsFault};
use jfr_filter::Filter;
use std::alloc::Global;

/// An option of `stacks`: one of the filter that chooses the events that are counted.
#[derive(Clone, Copy)]
pub struct StacksOption(pub FilterOption);

/// Reads the options of `stacks` and the name after them.
pub(crate) fn read_stacks(alloc: Global, unread: &mut UnreadWords<'_>) -> Result<Order, WordsFault>
    ensures { IsRead (stacks_from nothing_given unread.old) result (λ order. order) }
{
    let mut filter = Filter::new(alloc);
    'options: while let Some(option) = unread.take_option::<StacksOption>() {
        let value = unread.next_word()?;
        give_option(&mut filter, option.0, value)?;
    }
    let file = read_only_name(alloc, unread)?;
    Ok(Order::Stacks { filter, file })
}

impl Named for StacksOption {
    ghost use Rattle.jfr_words.specs.Stacks.{stacks_option_of};

    ghost named = { λ word. stacks_option_of word };

    fn of_word(word: &str) -> Option<Self> {
        Some(StacksOption(shown_option_of(word)?))
    }
}
