//! The known texts of a file.
ghost use Rattle.std.specs.Prelude.{◌≡◌, ◌||◌, ◌∷◌, ◌&&◌, ℕ, List, [], IfOk, OnOk, not};
ghost use Rattle.std.specs.Str.{chars};
ghost use Rattle.bstr.specs.Utf8.{lossy_chars};
ghost use Rattle.jfr_mask.specs.Held.{texts_of};
ghost use Rattle.jfr_mask.specs.Pseudonyms.{has_text, is_known, is_like_pseudonym, lines_of};

use jfr_base::NoMemory;
use jfr_filter::glob;
use std::alloc::Global;
use std::collections::BTreeSet;
use std::marker::Model;

/// The texts that are shown as they are. Contracts see them as a list.
#[derive(Drop)]
pub struct Known {
    texts: BTreeSet<String>,
}

impl Model for Known {
    ghost use Rattle.std.specs.Prelude.{ℕ, List};
    ghost use Rattle.jfr_mask.specs.Held.{texts_of};

    ghost Value = { List (List ℕ) };

    ghost view = { λ known. texts_of known.texts };
}

impl Known {
    /// No text is known. It allocates nothing.
    pub fn new(alloc: Global) -> Known
        ensures { result ≡ [] }
    {
        Known {
            texts: BTreeSet::new(alloc),
        }
    }

    /// The known texts of a file: its lines, without those that begin as a pseudonym does. `bytes` are those of the
    /// file, of which nothing is kept but the texts.
    pub fn of(alloc: Global, bytes: &[u8]) -> Result<Known, NoMemory>
        ensures ok { IfOk result (λ known. (t : List ℕ) → has_text known t ≡ is_known (lines_of bytes.now) t) }
    {
        let mut texts = BTreeSet::new(alloc);
        for line in bytes.split(|byte| *byte == b'\n') {
            add_line(alloc, &mut texts, line)?;
        }
        Ok(Known { texts })
    }

    /// Whether the text is known. It allocates nothing.
    pub fn has(&self, text: &str) -> bool
        ensures { result ≡ has_text self.now (chars text.now) }
    {
        self.texts.contains(text)
    }
}

/// Adds the text of a line, unless it begins as a pseudonym does.
fn add_line(alloc: Global, texts: &mut BTreeSet<String>, line: &[u8]) -> Result<(), NoMemory>
    ensures ok { OnOk result ((t : List ℕ) → has_text (texts_of texts.new) t ≡ (has_text (texts_of texts.old) t || is_known (lossy_chars line.now ∷ []) t)) }
{
    let text = String::from_utf8_lossy(alloc, line)?;
    if is_like_pseudonym(text.as_str()) {
        return Ok(());
    }
    texts.insert(text)?;
    Ok(())
}

/// Whether the text begins as a pseudonym does.
fn is_like_pseudonym(text: &str) -> bool
    ensures { result ≡ is_like_pseudonym (chars text.now) }
{
    glob("masked-*", text) || glob("()masked-*", text)
}
