//! Matching a pattern.
ghost use Rattle.std.specs.Prelude.{◌≡◌, ◌<◌, ◌∷◌, ◌==◌, ◌||◌, [], length, MatchOption};
ghost use Rattle.std.specs.Str.{chars};
ghost use Rattle.jfr_filter.specs.Patterns.{glob, has_wildcard, some_suffix, simple_name};
ghost use Rattle.jfr_filter.specs.Walks.{Goes, IsShorter};

/// Whether the pattern matches the whole text: `*` matches any run of characters, `?` exactly one, and every
/// other character itself. It allocates nothing.
///
/// Two positions are kept: that in the pattern after the last star, and that in the text at which this part
/// of the pattern is tried. The part up to the next star is tried from the left. Its first match is the best
/// one, since it leaves the most text for the later stars, so earlier stars are never tried again. Therefore
/// each character of the pattern is compared with each of the text at most once: for lengths m and n there
/// are at most m times n comparisons, however many stars there are.
pub fn glob(pattern: &str, text: &str) -> bool
    ensures { result ≡ glob (chars pattern.now) (chars text.now) }
{
    match up_to_star(pattern, text) {
        Walk::Whole => true,
        Walk::Fails => false,
        Walk::Star(pattern, text) => some_end(pattern, text),
    }
}

/// Whether the pattern matches some suffix of the text, including the whole text and the empty one.
fn some_end(pattern: &str, text: &str) -> bool
    ensures { result ≡ some_suffix (glob (chars pattern.now)) (chars text.now) }
{
    let mut pattern = pattern;
    let mut text = text;
    loop {
        match up_to_star(pattern, text) {
            Walk::Whole => return true,
            Walk::Star(later, rest) => {
                pattern = later;
                text = rest;
            }
            Walk::Fails => {
                let Some((_, rest)) = first_of(text) else {
                    return false;
                };
                text = rest;
            }
        }
    }
}

/// The result of comparing a pattern with a text up to the pattern's first star.
enum Walk<'a> {
    /// The pattern has no star, and matches the whole text.
    Whole,
    /// They differ before a star.
    Fails,
    /// A star was reached: the pattern after it, and the rest of the text.
    Star(&'a str, &'a str),
}

/// Compares the two, character by character, up to the pattern's first star.
fn up_to_star<'a>(pattern: &'a str, text: &'a str) -> Walk<'a>
    ensures goes { Goes (chars pattern.now) (chars text.now) result }
    ensures shorter { IsShorter pattern.now text.now result }
{
    let mut pattern = pattern;
    let mut text = text;
    while let Some((wanted, later)) = first_of(pattern) {
        if wanted == '*' {
            return Walk::Star(later, text);
        }
        let Some((found, rest)) = first_of(text) else {
            return Walk::Fails;
        };
        if !agrees(wanted, found) {
            return Walk::Fails;
        }
        pattern = later;
        text = rest;
    }
    match first_of(text) {
        None => Walk::Whole,
        Some(_) => Walk::Fails,
    }
}

/// Whether a character of a pattern, which isn't a star, matches one of the text.
fn agrees(wanted: char, found: char) -> bool
    ensures { result ≡ (wanted == 63 || wanted == found) }
{
    wanted == '?' || wanted == found
}

/// The first character, and the text after it; `None` exactly if the text is empty.
fn first_of(text: &str) -> Option<(char, &str)>
    ensures first { MatchOption result (chars text.now ≡ []) (λ p. chars text.now ≡ p.0 ∷ chars p.1.now) }
    ensures shorter { MatchOption result (text.now ≡ []) (λ p. length p.1.now < length text.now) }
{
    let mut left = text.chars();
    let first = left.next()?;
    Some((first, left.as_str()))
}

/// Whether the pattern has a star or a question mark.
pub(crate) fn has_wildcard(pattern: &str) -> bool
    ensures { result ≡ has_wildcard (chars pattern.now) }
{
    pattern.chars().any(|c| c == '*' || c == '?')
}

/// The part of a name after its last dot; the whole name if there is none.
pub(crate) fn simple_name(name: &str) -> &str
    ensures { chars result.now ≡ simple_name (chars name.now) }
{
    let mut simple = name;
    let mut rest = name;
    while let Some((character, later)) = first_of(rest) {
        if character == '.' {
            simple = later;
        }
        rest = later;
    }
    simple
}
