//! Comparing names.
ghost use Rattle.std.specs.Prelude.{◌≡◌};
ghost use Rattle.std.specs.Str.{chars, bytes_eq};

use jfr_base::Text;

/// Whether the two texts are equal.
pub fn is_text(text: &Text, other: &str) -> bool
    ensures { result ≡ bytes_eq text.now (chars other.now) }
{
    text.as_str() == other
}
