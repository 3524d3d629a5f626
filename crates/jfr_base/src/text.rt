//! A text that several owners can share. Contracts see it as the list of its characters.
ghost use Rattle.std.specs.Prelude.{◌≡◌, ◌≤◌, length, string_bytes, IfOk};
ghost use Rattle.std.specs.Str.{chars};
ghost use Rattle.jfr_base.specs.Texts.{bytes_of};

use crate::NoMemory;
use std::alloc::Global;
use std::marker::Model;
use std::rc::RcStr;

/// The length in bytes up to which a text is kept in place. Such a text takes 16 bytes and no allocation.
const IN_PLACE: usize = 14;

/// A text of at most `IN_PLACE` bytes of UTF-8. Contracts see these bytes.
#[derive(Drop)]
struct Brief {
    len: u8,
    bytes: [u8; IN_PLACE],
}

impl Model for Brief {
    ghost use Rattle.std.specs.Prelude.{ℕ, List, ◌≤◌, length, take, IsUtf8};

    ghost Value = { List ℕ };

    ghost view = { λ brief. take brief.len brief.bytes };

    ghost invariant = { λ brief. (brief.len ≤ length brief.bytes) × IsUtf8 (take brief.len brief.bytes) };
}

impl Brief {
    /// A copy of the text.
    fn of(text: &str) -> Brief
        requires { length text.now ≤ IN_PLACE }
        ensures { result ≡ text.now }
    {
        let mut bytes = [0; IN_PLACE];
        bytes[..text.len()].copy_from_slice(text.as_bytes());
        Brief {
            len: text.len() as u8,
            bytes,
        }
    }

    /// A copy.
    fn copy(&self) -> Brief
        ensures { result ≡ self.now }
    {
        Brief {
            len: self.len,
            bytes: self.bytes,
        }
    }

    /// The text as a string slice.
    fn as_str(&self) -> &str
        ensures { result.now ≡ self.now }
    {
        // It is proved to be UTF-8. A check at run time would slow `print`, which asks for the name of each
        // field of each event.
        unsafe { str::from_utf8_unchecked(&self.bytes[..self.len as usize]) }
    }
}

/// The UTF-8 of a text: a short one in place, a longer one shared by all its owners.
#[derive(Drop)]
enum Bytes {
    Brief(Brief),
    Shared(RcStr),
}

/// A text that several owners can share. `share` makes another owner without copying the text.
#[derive(Drop)]
pub struct Text {
    bytes: Bytes,
}

impl Model for Text {
    ghost use Rattle.std.specs.Prelude.{ℕ, List};
    ghost use Rattle.std.specs.Str.{chars};
    ghost use Rattle.jfr_base.specs.Texts.{bytes_of};

    ghost Value = { List ℕ };

    ghost view = { λ text. chars (bytes_of text.bytes) };
}

impl Text {
    /// A copy of the text.
    pub fn make(alloc: Global, text: &str) -> Result<Text, NoMemory>
        ensures ok { IfOk result (λ made. made ≡ chars text.now) }
    {
        if text.len() <= IN_PLACE {
            return Ok(Text {
                bytes: Bytes::Brief(Brief::of(text)),
            });
        }
        Ok(Text {
            bytes: Bytes::Shared(RcStr::from_str(alloc, text)?),
        })
    }

    /// The text of the string, which is copied only if it has at most `IN_PLACE` bytes.
    pub fn from_string(string: String) -> Result<Text, NoMemory>
        ensures ok { IfOk result (λ made. made ≡ chars (string_bytes string)) }
    {
        if string.len() <= IN_PLACE {
            return Ok(Text {
                bytes: Bytes::Brief(Brief::of(string.as_str())),
            });
        }
        Ok(Text {
            bytes: Bytes::Shared(RcStr::from_string(string)?),
        })
    }

    /// Another owner of the text. It allocates nothing.
    pub fn share(&self) -> Result<Text, NoMemory>
        ensures ok { IfOk result (λ shared. shared ≡ self.now) }
    {
        match &self.bytes {
            Bytes::Brief(brief) => Ok(Text {
                bytes: Bytes::Brief(brief.copy()),
            }),
            Bytes::Shared(text) => Ok(Text {
                bytes: Bytes::Shared(text.clone()?),
            }),
        }
    }

    /// The text as a string slice.
    pub fn as_str(&self) -> &str
        ensures { chars result.now ≡ self.now }
    {
        match &self.bytes {
            Bytes::Brief(brief) => brief.as_str(),
            Bytes::Shared(text) => text.as_str(),
        }
    }
}
