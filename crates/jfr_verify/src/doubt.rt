//! Why the output of a scrub isn't accepted.
ghost use Rattle.std.specs.Prelude.{◌≡◌};
ghost use Rattle.jfr_verify.specs.Doubts.{doubt_name};

/// Why the output of a scrub isn't accepted. `check` returns only the last five;
/// `verify_stream` also returns the first three, which are about the files.
#[derive(Clone, Copy, Debug, PartialEq, Eq)]
pub enum Doubt {
    /// The file of receipts has 2^40 bytes or more.
    ReceiptLong,
    /// A chunk of the output is refused.
    OutRefused,
    /// The input and the output have different numbers of chunks.
    ChunksDiffer,
    /// A class of the output isn't a class of the input.
    ClassesDiffer,
    /// The events of the output aren't the kept events of the input.
    EventsDiffer,
    /// The entries of the output aren't copies of entries in force of the input, in order.
    EntriesDiffer,
    /// The output lacks an entry to which a kept event or an entry of the output refers.
    EntryMissing,
    /// The next bytes of the receipts aren't a receipt of the output chunk, or bytes follow the last receipt.
    ReceiptBad,
}

impl Doubt {
    /// The name of the doubt.
    pub fn name(&self) -> &'static str
        ensures { result.now ≡ doubt_name self.now }
    {
        match self {
            Doubt::ReceiptLong => "ReceiptLong",
            Doubt::OutRefused => "OutRefused",
            Doubt::ChunksDiffer => "ChunksDiffer",
            Doubt::ClassesDiffer => "ClassesDiffer",
            Doubt::EventsDiffer => "EventsDiffer",
            Doubt::EntriesDiffer => "EntriesDiffer",
            Doubt::EntryMissing => "EntryMissing",
            Doubt::ReceiptBad => "ReceiptBad",
        }
    }
}

/// Why a pair of chunks isn't accepted.
#[derive(Clone, Copy, Debug, PartialEq, Eq)]
pub enum CheckFault {
    /// The pair fails a check.
    Doubt(Doubt),
    /// Memory ran out.
    Memory,
}
