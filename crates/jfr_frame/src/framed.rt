//! One record of a chunk.
ghost use Rattle.std.specs.Prelude.{ℕ, ◌≡◌, ◌≢◌, ◌+◌, ◌^◌, ◌<◌, ◌≤◌, ◌↔◌, length, None, Some, Ok, IfOk, IfErr, IfSome, MatchResult};
ghost use Rattle.jfr_base.specs.Formats.{int_at};
ghost use Rattle.jfr_base.specs.Integer.{IntAt};
ghost use Rattle.jfr_base.specs.declared.reason.Reason.TheVariants as reasons;

use jfr_base::{Flaw, Reason, Var, read_var, read_within};

/// The type of metadata records.
pub const METADATA_TYPE: u64 = 0;

/// The type of checkpoints.
pub const CHECKPOINT_TYPE: u64 = 1;

/// A record as it was found (docs/FORMAT.md, Records). Offsets count from the chunk's first byte.
#[derive(Clone, Copy, Debug, PartialEq, Eq)]
pub struct Framed {
    /// The offset of its first byte.
    pub at: usize,
    /// The length of the whole record in bytes, including its size and its type.
    pub size: usize,
    /// The offset of its type, which follows the size.
    pub type_at: usize,
    /// `METADATA_TYPE`, `CHECKPOINT_TYPE`, or another number: the class's id if the record is an event.
    pub type_id: u64,
    /// The offset of its body, which follows the type.
    pub body: usize,
}

impl Framed {
    /// The offset after the record.
    #[inline(always)]
    pub fn end(&self) -> usize
        requires { record_end self.now < 2 ^ 64 }
        ensures { result ≡ record_end self.now }
    {
        self.at + self.size
    }
}

ghost use Rattle.jfr_frame.specs.Records.{covering, IsRecord, NoRecord, record_at, record_end};

/// The most bytes that the size and the type of a usual record take. The JDK writes a size in one byte or
/// pads it to four, and nearly all types take one byte or two.
const USUAL_HEAD: usize = 6;

/// The record that starts at the offset `at`; `None` exactly at the chunk's end. It is refused as
/// `RecordSize`, at `at`, exactly if its size or its type doesn't end within the chunk, or the size is less
/// than these two take, or reaches past the chunk's end.
#[inline(always)]
pub fn next_record(chunk: &[u8], at: usize) -> Result<Option<Framed>, Flaw>
    requires { at ≤ length chunk.now }
    ensures end { (result ≡ Ok None) ↔ (at ≡ length chunk.now) }
    ensures ok { IfOk result (λ found. IfSome found (λ r. (r.at ≡ at) × IsRecord chunk.now r)) }
    ensures refused { IfErr result (λ flaw. (flaw ≡ record { offset = at; reason = reasons.RecordSize }) × (at < length chunk.now) × NoRecord chunk.now at) }

    // The answer that `record_at` computes.
    ensures exact { at < length chunk.now → MatchResult result (λ found. (found ≡ record_at chunk.now at) × (found ≢ None)) (λ flaw. record_at chunk.now at ≡ None) }
{
    if at == chunk.len() {
        return Ok(None);
    }
    match framed_at(chunk, at) {
        Some(record) => Ok(Some(record)),
        None => Err(Flaw {
            offset: at as u64,
            reason: Reason::RecordSize,
        }),
    }
}

/// The size and the type with which a record starts.
#[derive(Clone, Copy)]
struct Head {
    size: Var,
    type_id: Var,
}

/// The record that starts at the offset `at`, if one does.
#[inline(always)]
#[tactic(auto, unfolding(crate::specs::Records::record_at))]
fn framed_at(chunk: &[u8], at: usize) -> Option<Framed>
    requires { at < length chunk.now }
    ensures { result ≡ record_at chunk.now at }
{
    match usual_head(chunk, at) {
        Some(head) => framed_by(chunk, at, head),
        None => unusual_at(chunk, at),
    }
}

/// The record at the offset `at`, if there is one; its size and type may have any number of bytes. This only
/// unpacks the result of a call that isn't inlined, so that the fast path's result stays in registers.
#[inline(always)]
fn unusual_at(chunk: &[u8], at: usize) -> Option<Framed>
    requires { at < length chunk.now }
    ensures { result ≡ record_at chunk.now at }
{
    Some(unusual_out_of_line(chunk, at)?)
}

/// As `unusual_at`, out of line.
#[cold]
#[inline(never)]
#[tactic(auto, unfolding(crate::specs::Records::record_at))]
fn unusual_out_of_line(chunk: &[u8], at: usize) -> Option<Framed>
    requires { at < length chunk.now }
    ensures { result ≡ record_at chunk.now at }
{
    let size = read_within(chunk, at, chunk.len()).ok()?;
    let type_id = read_within(chunk, size.end, chunk.len()).ok()?;
    framed_by(chunk, at, Head { size, type_id })
}

/// The size and the type at the offset `at`, if both are usual and `USUAL_HEAD` bytes are left. So the
/// chunk's end is checked once, and not for each byte.
#[inline(always)]
fn usual_head(chunk: &[u8], at: usize) -> Option<Head>
    requires { at < length chunk.now }
    ensures size { IfSome result (λ head. int_at chunk.now at (length chunk.now) ≡ Some head.size) }
    ensures type_id { IfSome result (λ head. int_at chunk.now head.size.end (length chunk.now) ≡ Some head.type_id) }
{
    if chunk.len() - at < USUAL_HEAD {
        return None;
    }
    let size = usual_size(chunk, at)?;
    let type_id = usual_type(chunk, size.end)?;
    Some(Head { size, type_id })
}

/// The size at the offset `at`, if it has one byte or four.
#[inline(always)]
fn usual_size(chunk: &[u8], at: usize) -> Option<Var>
    requires room { at + 4 ≤ length chunk.now }
    ensures range { IfSome result (λ v. (at < v.end) × (v.end ≤ at + 4)) }
    ensures exact { IfSome result (λ v. int_at chunk.now at (length chunk.now) ≡ Some v) }
{
    let first = u64::from(chunk[at]);
    if first < 128 {
        return Some(Var {
            value: first,
            end: at + 1,
        });
    }
    let second = u64::from(chunk[at + 1]);
    let third = u64::from(chunk[at + 2]);
    let fourth = u64::from(chunk[at + 3]);
    if second < 128 || third < 128 || fourth >= 128 {
        return None;
    }
    Some(Var {
        value: first - 128 + 128 * (second - 128) + 16_384 * (third - 128) + 2_097_152 * fourth,
        end: at + 4,
    })
}

/// The type at the offset `at`, if it has one byte or two.
#[inline(always)]
fn usual_type(chunk: &[u8], at: usize) -> Option<Var>
    requires room { at + 2 ≤ length chunk.now }
    ensures range { IfSome result (λ v. (at < v.end) × (v.end ≤ at + 2)) }
    ensures exact { IfSome result (λ v. int_at chunk.now at (length chunk.now) ≡ Some v) }
{
    let first = u64::from(chunk[at]);
    if first < 128 {
        return Some(Var {
            value: first,
            end: at + 1,
        });
    }
    let second = u64::from(chunk[at + 1]);
    if second >= 128 {
        return None;
    }
    Some(Var {
        value: first - 128 + 128 * second,
        end: at + 2,
    })
}

/// The record of this size and type, if it covers both and ends within the chunk.
#[inline(always)]
fn framed_by(chunk: &[u8], at: usize, head: Head) -> Option<Framed>
    requires { at < length chunk.now }
    ensures { result ≡ covering chunk.now at head.size head.type_id }
{
    let Head { size, type_id } = head;
    if size.value > (chunk.len() - at) as u64 {
        return None;
    }
    let count = size.value as usize;
    let body = type_id.end;
    if body > at + count {
        return None;
    }
    Some(Framed {
        at,
        size: count,
        type_at: size.end,
        type_id: type_id.value,
        body,
    })
}

/// The type at the offset `type_at`, read again because it is too large to be kept. Such types are rare, so
/// this is out of line.
#[cold]
#[inline(never)]
pub(crate) fn wide_type(chunk: &[u8], type_at: usize) -> u64
    requires order { type_at ≤ length chunk.now }
    requires spelled { (q : ℕ) × (v : ℕ) × IntAt chunk.now type_at q v }
    ensures { (q v : ℕ) → IntAt chunk.now type_at q v → result ≡ v }
{
    let Ok(type_id) = read_var(chunk, type_at) else {
        unreachable!()
    };
    type_id.value
}
