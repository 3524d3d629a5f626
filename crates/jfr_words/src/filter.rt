//! The options of a filter, as the only options of a command.
ghost use Rattle.jfr_words.specs.Filtered.{IsFiltered};

use crate::WordsFault;
use crate::filter_option::{FilterOption, give_option};
use crate::unread::UnreadWords;
use jfr_filter::Filter;
use std::alloc::Global;

/// Reads the options of a filter.
pub(crate) fn read_filter(alloc: Global, unread: &mut UnreadWords<'_>) -> Result<Filter, WordsFault>
    ensures { IsFiltered unread.old result unread.new }
{
    let mut filter = Filter::new(alloc);
    'options: while let Some(option) = unread.take_option::<FilterOption>() {
        let value = unread.next_word()?;
        give_option(&mut filter, option, value)?;
    }
    Ok(filter)
}
