//! `--json`, as the only option of a command.
ghost use Rattle.std.specs.Prelude.{◌≡◌};
ghost use Rattle.std.specs.Str.{chars};
ghost use Rattle.jfr_words.specs.Jsons.{is_json, asks_json, after_json};

use crate::unread::UnreadWords;

/// Takes the first word if it is `--json`, and returns whether it was.
pub(crate) fn take_json(unread: &mut UnreadWords<'_>) -> bool
    ensures asked { result ≡ asks_json unread.old }
    ensures left { unread.new ≡ after_json unread.old }
{
    let Some(word) = unread.first() else {
        return false;
    };
    if !is_json(word) {
        return false;
    }
    let _ = unread.take();
    true
}

/// Whether the word is `--json`.
fn is_json(word: &str) -> bool
    ensures { result ≡ is_json (chars word.now) }
{
    word == "--json"
}
