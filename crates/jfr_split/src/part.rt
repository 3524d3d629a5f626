//! The limits of parts, and the part to which a chunk belongs.
ghost use Rattle.std.specs.Prelude.{◌≡◌, ◌<◌, ◌+◌, ◌≤◌, ◌^◌, true, false};
ghost use Rattle.jfr_outside.specs.World.{slice_of};
ghost use Rattle.jfr_split.specs.Parts.{IsUsable, folder_of, begins, part_by, part_with};

use jfr_outside::Text;

/// The rule by which a recording is split into parts: the folder, and the limits.
///
/// Each of the three numbers is at least 1, and `max_parts` is at most 999,999.
#[derive(Drop)]
pub struct SplitRule {
    /// The folder of the parts; without one their names start with the stem.
    pub folder: Option<Text>,
    /// The most chunks of a part.
    pub max_chunks: u64,
    /// The most bytes of a part with several chunks. A larger chunk is a part of its own.
    pub max_size: u64,
    /// The most parts that there may be.
    pub max_parts: u64,
}

/// The name of the folder, if one is given.
pub fn folder_name(rule: &SplitRule) -> Option<&str>
    ensures { slice_of result ≡ folder_of rule.now }
{
    match &rule.folder {
        Some(folder) => Some(folder.as_str()),
        None => None,
    }
}

/// The current part, if there is one.
#[derive(Clone, Copy)]
pub struct Part {
    /// Its number, from 1; 0 if there is no part yet.
    pub number: u64,
    /// The number of its chunks.
    pub chunks: u64,
    /// The number of bytes of its chunks together.
    pub bytes: u64,
}

impl Part {
    ghost use Rattle.jfr_split.specs.Parts.{no_part};

    /// No part yet.
    pub fn none() -> Part
        ensures { result ≡ no_part }
    {
        Part {
            number: 0,
            chunks: 0,
            bytes: 0,
        }
    }
}

/// Whether the chunk starts a new part.
pub fn starts_part(rule: &SplitRule, part: &Part, chunk: &[u8]) -> bool
    ensures { result ≡ begins rule.now part.now chunk.now }
{
    let size = chunk.len() as u64;
    part.number == 0
        || rule.max_chunks <= part.chunks
        || rule.max_size < size
        || rule.max_size - size < part.bytes
}

/// The part that the chunk starts.
fn new_part(part: &Part, chunk: &[u8]) -> Part
    requires { part.now.number + 1 < 2 ^ 64 }
    ensures { result ≡ part_by true part.now chunk.now }
{
    Part {
        number: part.number + 1,
        chunks: 1,
        bytes: chunk.len() as u64,
    }
}

/// The part with this chunk added.
fn fuller_part(rule: &SplitRule, part: &Part, chunk: &[u8]) -> Part
    requires { begins rule.now part.now chunk.now ≡ false }
    ensures { result ≡ part_by false part.now chunk.now }
{
    // Read only for the proof: the part has less than these numbers of 64 bits, so no sum below wraps.
    let _max_chunks = rule.max_chunks;
    let _max_size = rule.max_size;
    let part = *part;
    Part {
        number: part.number,
        chunks: part.chunks + 1,
        bytes: part.bytes + chunk.len() as u64,
    }
}

/// The part to which the chunk belongs.
pub fn next_part(rule: &SplitRule, part: &Part, chunk: &[u8]) -> Part
    requires usable { IsUsable rule.now }
    requires room { begins rule.now part.now chunk.now ≡ true → part.now.number < rule.now.max_parts }
    ensures { result ≡ part_with rule.now part.now chunk.now }
{
    if starts_part(rule, part, chunk) {
        return new_part(part, chunk);
    }
    fuller_part(rule, part, chunk)
}
