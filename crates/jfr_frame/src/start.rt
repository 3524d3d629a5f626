//! What is kept of a record.
ghost use Rattle.std.specs.Prelude.{◌≡◌, ◌+◌, ◌^◌, ◌<◌, ◌≤◌};
ghost use Rattle.jfr_frame.specs.Starts.{start_of};

use crate::Framed;

/// What is kept of a record: its offset, its type, and how far after its start its type and its body start.
/// It takes only eight bytes, because a chunk has many records.
#[derive(Clone, Copy, Debug)]
pub(crate) struct Start {
    /// The type, or `WIDE` if the type is that large or larger.
    pub type_id: u16,
    pub type_at: u8,
    /// At most 18, as the size and the type have at most nine bytes each.
    pub body: u8,
    /// Every offset fits, since a chunk of 2^32 bytes or more isn't read.
    pub at: u32,
}

/// Kept in place of a type of this number or a larger one. Such a type is read from the chunk when it is
/// needed.
pub(crate) const WIDE: u16 = u16::MAX;

impl Start {
    /// What is kept of this record.
    #[inline(always)]
    pub fn of(framed: Framed) -> Start
        requires order { (framed.at ≤ framed.type_at) × (framed.type_at ≤ framed.body) }
        requires low { framed.at < 2 ^ 32 }
        requires short { framed.body < framed.at + 256 }
        ensures { result ≡ start_of framed }
    {
        Start {
            type_id: framed.type_id.min(u64::from(WIDE)) as u16,
            type_at: (framed.type_at - framed.at) as u8,
            body: (framed.body - framed.at) as u8,
            at: framed.at as u32,
        }
    }
}
