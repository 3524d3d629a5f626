//! The reasons for which a recording is refused.
ghost use Rattle.std.specs.Prelude.{◌≡◌};

use std::error::Error;
use std::fmt;

/// Why a recording is refused. Each reason has a number, and a name that the program prints.
#[derive(Clone, Copy, Debug, PartialEq, Eq)]
pub enum Reason {
    /// The recording is empty.
    NoChunk,
    /// Fewer bytes are left for a chunk than a header has.
    ShortHeader,
    /// The chunk doesn't begin with the magic bytes.
    Magic,
    /// The major version isn't 2.
    Version,
    /// The chunk's state says that it isn't finished.
    Unfinished,
    /// The chunk's integers aren't compressed.
    NotCompact,
    /// The chunk's size in the header is below 68 bytes, or is 2^30 or more.
    ChunkSize,
    /// Fewer bytes are left than the chunk's size in the header.
    ShortChunk,
    /// No record starts at the offset: the size or the type there doesn't end within the chunk, or the size is
    /// less than these two take, or reaches past the chunk's end.
    RecordSize,
    /// No metadata record starts where the header says.
    MetadataPosition,
    /// No checkpoint starts where the header says.
    PoolPosition,
    /// A checkpoint's delta is neither 0 nor a step to an earlier checkpoint.
    ChainDelta,
    /// A part of a body doesn't fit in its record.
    Short,
    /// A body has bytes left over.
    Trailing,
    /// A string's kind isn't known, or isn't allowed there.
    StringKind,
    /// An index isn't below the number of strings.
    StringIndex,
    /// An element of the metadata's tree is deeper than 16 levels.
    TreeDeep,
    /// The root of the metadata's tree has no child named `metadata`, which holds the classes.
    NoClasses,
    /// A class has no name, or no id that is a number below 2^63.
    ClassBad,
    /// A class has the id of an earlier one.
    ClassTwice,
    /// A field has no name or no class id, or one of its marks is faulty.
    FieldBad,
    /// A field has the name of an earlier one of its class.
    FieldTwice,
    /// A field's class isn't defined.
    UnknownType,
    /// A field without the constant mark has a composite class without fields.
    EmptyInline,
    /// A class begins a chain of more than 32 inline steps.
    InlineDeep,
    /// A pool's class isn't defined.
    PoolType,
    /// A chunk starts at byte 2^40 of the recording or later.
    TooLong,
}

impl Reason {
    ghost use Rattle.jfr_base.specs.Reasons.{reason_name, reason_number};

    /// The number of the reason.
    pub fn number(&self) -> u8
        ensures exact { result ≡ reason_number self.now }
    {
        match self {
            Reason::NoChunk => 1,
            Reason::ShortHeader => 2,
            Reason::Magic => 3,
            Reason::Version => 4,
            Reason::Unfinished => 5,
            Reason::NotCompact => 6,
            Reason::ChunkSize => 7,
            Reason::ShortChunk => 8,
            Reason::RecordSize => 9,
            Reason::MetadataPosition => 10,
            Reason::PoolPosition => 11,
            Reason::ChainDelta => 12,
            Reason::Short => 13,
            Reason::Trailing => 14,
            Reason::StringKind => 15,
            Reason::StringIndex => 16,
            Reason::TreeDeep => 17,
            Reason::NoClasses => 18,
            Reason::ClassBad => 19,
            Reason::ClassTwice => 20,
            Reason::FieldBad => 21,
            Reason::FieldTwice => 22,
            Reason::UnknownType => 23,
            Reason::EmptyInline => 24,
            Reason::InlineDeep => 25,
            Reason::PoolType => 26,
            Reason::TooLong => 27,
        }
    }

    /// The name of the reason, as the program prints it.
    pub fn name(&self) -> &'static str
        ensures exact { result.now ≡ reason_name self.now }
    {
        match self {
            Reason::NoChunk => "NoChunk",
            Reason::ShortHeader => "ShortHeader",
            Reason::Magic => "Magic",
            Reason::Version => "Version",
            Reason::Unfinished => "Unfinished",
            Reason::NotCompact => "NotCompact",
            Reason::ChunkSize => "ChunkSize",
            Reason::ShortChunk => "ShortChunk",
            Reason::RecordSize => "RecordSize",
            Reason::MetadataPosition => "MetadataPosition",
            Reason::PoolPosition => "PoolPosition",
            Reason::ChainDelta => "ChainDelta",
            Reason::Short => "Short",
            Reason::Trailing => "Trailing",
            Reason::StringKind => "StringKind",
            Reason::StringIndex => "StringIndex",
            Reason::TreeDeep => "TreeDeep",
            Reason::NoClasses => "NoClasses",
            Reason::ClassBad => "ClassBad",
            Reason::ClassTwice => "ClassTwice",
            Reason::FieldBad => "FieldBad",
            Reason::FieldTwice => "FieldTwice",
            Reason::UnknownType => "UnknownType",
            Reason::EmptyInline => "EmptyInline",
            Reason::InlineDeep => "InlineDeep",
            Reason::PoolType => "PoolType",
            Reason::TooLong => "TooLong",
        }
    }
}

impl fmt::Display for Reason {
    fn fmt<W: fmt::Write>(&self, f: &mut fmt::Formatter<W>) -> fmt::Result {
        f.write_str(self.name())
    }
}

impl Error for Reason {}
