//! Decimal numbers as words.
ghost use Rattle.std.specs.Prelude.{◌≡◌};
ghost use Rattle.std.specs.Char.{is_ascii_digit};
ghost use Rattle.std.specs.List.{list_all};
ghost use Rattle.std.specs.Str.{chars};
ghost use Rattle.jfr_base.specs.Decimal.{decimal_number};

/// The most digits that a number may have.
const DIGITS: usize = 19;

/// Whether all bytes of the word are ASCII digits. True of the empty word.
fn is_digits(word: &str) -> bool
    ensures { result ≡ list_all is_ascii_digit word.now }
{
    word.as_bytes().iter().all(|byte| byte.is_ascii_digit())
}

/// The number that a word spells with one to nineteen ASCII digits; `None` for any other word. The digits may
/// begin with zeros.
pub fn decimal_number(word: &str) -> Option<u64>
    ensures bytes { result ≡ decimal_number word.now }
    ensures characters { result ≡ decimal_number (chars word.now) }
{
    if word.len() > DIGITS {
        return None;
    }
    if !is_digits(word) {
        return None;
    }
    word.parse::<u64>().ok()
}
