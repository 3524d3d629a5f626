//! Names of files and folders.
ghost use Rattle.std.specs.Prelude.{◌≡◌};
ghost use Rattle.std.specs.Str.{chars};
ghost use Rattle.jfr_words.specs.Names.{is_name, name_in, only_name, three_names, two_names};
ghost use Rattle.jfr_words.specs.Words.{IsRead};

use crate::WordsFault;
use crate::unread::UnreadWords;
use jfr_outside::Text;
use std::alloc::Global;

/// Whether a word can be a name: it isn't empty and doesn't begin with a dash.
fn is_name(word: &str) -> bool
    ensures { result ≡ is_name (chars word.now) }
{
    match word.chars().next() {
        Some(first) => first != '-',
        None => false,
    }
}

/// The word as a name.
pub(crate) fn read_name(alloc: Global, word: &str) -> Result<Text, WordsFault>
    ensures { IsRead (name_in (chars word.now)) result (λ name. name) }
{
    if !is_name(word) {
        return Err(WordsFault::Usage);
    }
    Ok(Text::make(alloc, word)?)
}

/// The name that is the only word left.
pub(crate) fn read_only_name(
    alloc: Global,
    unread: &mut UnreadWords<'_>,
) -> Result<Text, WordsFault>
    ensures { IsRead (only_name unread.old) result (λ name. name) }
{
    let word = unread.next_word()?;
    unread.end()?;
    read_name(alloc, word)
}

/// The two names that are the only words left.
pub(crate) fn read_two_names(
    alloc: Global,
    unread: &mut UnreadWords<'_>,
) -> Result<(Text, Text), WordsFault>
    ensures { IsRead (two_names unread.old) result (λ names. names) }
{
    let first = unread.next_word()?;
    let second = unread.next_word()?;
    unread.end()?;
    let first = read_name(alloc, first)?;
    let second = read_name(alloc, second)?;
    Ok((first, second))
}

/// The three names that are the only words left.
pub(crate) fn read_three_names(
    alloc: Global,
    unread: &mut UnreadWords<'_>,
) -> Result<(Text, Text, Text), WordsFault>
    ensures { IsRead (three_names unread.old) result (λ names. names) }
{
    let first = unread.next_word()?;
    let second = unread.next_word()?;
    let third = unread.next_word()?;
    unread.end()?;
    let first = read_name(alloc, first)?;
    let second = read_name(alloc, second)?;
    let third = read_name(alloc, third)?;
    Ok((first, second, third))
}
