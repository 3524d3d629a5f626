//! Reading a string in place.
ghost use Rattle.std.specs.Prelude.{◌≡◌, ◌↔◌, ℕ, ◌+◌, ◌-◌, ◌<◌, ◌≤◌, ◌^◌, List, [], length, IfOk, IfErr, IfSome, IsOk, IsTrue, MatchOption, MatchResult, Ok, Err, slice_index, slice_range, true};
ghost use Rattle.jfr_base.specs.Integer.{IntAt};
ghost use Rattle.jfr_base.specs.Formats.{Reads, Fails, times, integer, checked, run, end_or_flaw};
ghost use Rattle.jfr_text.specs.Spans.{content_of, first_integers, answer_of, AreShort, IsShortUnits, IsSpanAt};
ghost use Rattle.jfr_text.specs.Strings.{Key, Units, SpellAll, IsString, kind_fault, counted_bytes, counted_integers, after_kind, bare_content, key_format, string_format};

use crate::span::{EMPTY_BYTE, KEY_BYTE, LATIN_BYTE, NULL_BYTE, UNITS_BYTE, UTF8_BYTE};
use crate::{StringKind, StringSpan};
use jfr_base::{Flaw, Reason, read_within};

/// A word with the top bit of each of its eight bytes set.
const TOP_BITS: u64 = 0x8080_8080_8080_8080;

/// Reads the string that starts at the offset `at` and ends by `end`: a kind byte, and what follows it. The
/// flaw is `Short` at the kind byte, the integer or the run of bytes that doesn't end by `end`, or
/// `StringKind` at a kind byte above 5.
#[inline(always)]
pub fn read_string<'a>(bytes: &'a [u8], at: usize, end: usize) -> Result<StringSpan<'a>, Flaw>
    requires order { at ≤ end }
    requires within { end ≤ length bytes.now }

    // The string by its grammar, and where its parts are.
    ensures ok { IfOk result (λ s. Reads (string_format true) bytes.now end at (content_of s) s.end) }
    ensures spelled { IfOk result (λ s. IsString (slice_range bytes.now at s.end) (content_of s)) }
    ensures span { IfOk result (IsSpanAt bytes.now at) }
    ensures range { IfOk result (λ s. (at < s.end) × (s.end ≤ end)) }

    ensures refused { IfErr result (λ e. Fails (string_format true) bytes.now end at e.offset e.reason) }

    // The answer that the string format computes.
    ensures exact { answer_of result ≡ run (string_format true) bytes.now end at }
{
    if at == end {
        return Err(Flaw::short(at));
    }
    read_kind(bytes[at], bytes, at, end)
}

/// The string that starts at the offset `at` and ends by `end`, where there is known to be one.
#[inline(always)]
pub fn known_string<'a>(bytes: &'a [u8], at: usize, end: usize) -> StringSpan<'a>
    requires order { at ≤ end }
    requires within { end ≤ length bytes.now }
    requires known { IsOk (run (string_format true) bytes.now end at) }
    ensures span { IsSpanAt bytes.now at result }
    ensures range { (at < result.end) × (result.end ≤ end) }
    ensures exact { run (string_format true) bytes.now end at ≡ Ok (record { value = content_of result; place = result.end }) }
{
    let Ok(string) = read_string(bytes, at, end) else {
        unreachable!()
    };
    string
}

/// Whether the string that starts at the offset `at` is only a kind byte: the null string, or the empty one.
#[inline(always)]
pub fn is_bare(bytes: &[u8], at: usize, end: usize) -> bool
    requires order { at ≤ end }
    requires within { end ≤ length bytes.now }
    ensures exact { IsTrue result ↔ ((at < end) × (slice_index bytes.now at < 2)) }
    ensures spelled { IsTrue result → IsString (slice_range bytes.now at (at + 1)) (bare_content (slice_index bytes.now at)) }
    ensures bare { IsTrue result → run (string_format true) bytes.now end at ≡ Ok (record { value = bare_content (slice_index bytes.now at); place = at + 1 }) }
{
    at < end && bytes[at] < KEY_BYTE
}

/// Whether the string that starts at the offset `at` is a key. If so, the key is the integer after the kind
/// byte, which isn't read here.
#[inline(always)]
pub fn is_key(bytes: &[u8], at: usize, end: usize) -> bool
    requires order { at ≤ end }
    requires within { end ≤ length bytes.now }
    ensures exact { IsTrue result ↔ ((at < end) × (slice_index bytes.now at ≡ 2)) }
    ensures spelled { IsTrue result → (to key : ℕ) → IntAt bytes.now (at + 1) to key → to ≤ end → IsString (slice_range bytes.now at to) (Key key) }
    ensures key { IsTrue result → run (string_format true) bytes.now end at ≡ run key_format bytes.now end (at + 1) }
{
    at < end && bytes[at] == KEY_BYTE
}

/// The offset after the string that starts at the offset `at`, if it is UTF-16 in short integers: its kind
/// byte is 4, its count has one byte, and so has each of its integers. `None` also if it doesn't end by
/// `end`.
#[inline(never)]
pub fn short_units_end(bytes: &[u8], at: usize, end: usize) -> Option<usize>
    requires order { at ≤ end }
    requires within { end ≤ length bytes.now }
    ensures range { IfSome result (λ to. (at ≤ to) × (to ≤ end)) }
    ensures exact { MatchOption result ((to : ℕ) → to ≤ end → ¬ IsShortUnits bytes.now at to) (IsShortUnits bytes.now at) }
    ensures spelled { IfSome result (λ to. (units : List ℕ) × IsString (slice_range bytes.now at to) (Units units)) }
    ensures units { IfSome result (λ to. (units : List ℕ) × (run (string_format true) bytes.now end at ≡ Ok (record { value = Units units; place = to }))) }
{
    if end - at < 2 || bytes[at] != UNITS_BYTE {
        return None;
    }
    let from = at + 2;
    let count = bytes[at + 1] as usize;
    if count >= 128 || count > end - from {
        return None;
    }
    let to = from + count;
    if are_short(bytes, from, to) {
        Some(to)
    } else {
        None
    }
}

/// Reads what follows the kind byte, which is at the offset `at`.
#[inline(always)]
fn read_kind<'a>(kind: u8, bytes: &'a [u8], at: usize, end: usize) -> Result<StringSpan<'a>, Flaw>
    requires order { at < end }
    requires within { end ≤ length bytes.now }
    ensures span { IfOk result (IsSpanAt bytes.now at) }
    ensures exact { answer_of result ≡ checked at (kind_fault true kind) (run (after_kind kind) bytes.now end (at + 1)) }
{
    match kind {
        NULL_BYTE => Ok(bare(StringKind::Null, at)),
        EMPTY_BYTE => Ok(bare(StringKind::Empty, at)),
        KEY_BYTE => {
            let key = read_within(bytes, at + 1, end)?;
            Ok(StringSpan {
                kind: StringKind::Key,
                at,
                end: key.end,
                payload: &[],
                count: 0,
                key: key.value,
            })
        }
        UTF8_BYTE => Ok(read_bytes(bytes, at + 1, end)?.spanned(StringKind::Utf8, at)),
        UNITS_BYTE => Ok(read_integers(bytes, at + 1, end)?.spanned(StringKind::Units, at)),
        LATIN_BYTE => Ok(read_bytes(bytes, at + 1, end)?.spanned(StringKind::Latin, at)),
        _ => Err(Flaw {
            offset: at as u64,
            reason: Reason::StringKind,
        }),
    }
}

/// The string that is only a kind byte.
#[inline(always)]
fn bare<'a>(kind: StringKind, at: usize) -> StringSpan<'a>
    requires { at + 1 < 2 ^ 64 }
    ensures place { (result.kind ≡ kind) × (result.at ≡ at) × (result.end ≡ at + 1) }
    ensures empty { (result.payload.now ≡ []) × (result.count ≡ 0) × (result.key ≡ 0) }
{
    StringSpan {
        kind,
        at,
        end: at + 1,
        payload: &[],
        count: 0,
        key: 0,
    }
}

/// A length or a count, the bytes that it covers, and the offset after them.
#[derive(Clone, Copy)]
struct Counted<'a> {
    count: u64,
    payload: &'a [u8],
    end: usize,
}

impl<'a> Counted<'a> {
    /// The string of this kind, whose kind byte is at the offset `at`.
    #[inline(always)]
    fn spanned(self, kind: StringKind, at: usize) -> StringSpan<'a>
        ensures place { (result.kind ≡ kind) × (result.at ≡ at) × (result.end ≡ self.entry.end) }
        ensures counted { (result.payload.now ≡ self.entry.payload.now) × (result.count ≡ self.entry.count) × (result.key ≡ 0) }
    {
        StringSpan {
            kind,
            at,
            end: self.end,
            payload: self.payload,
            count: self.count,
            key: 0,
        }
    }
}

/// Reads a length, and this many bytes.
#[inline(always)]
fn read_bytes<'a>(bytes: &'a [u8], at: usize, end: usize) -> Result<Counted<'a>, Flaw>
    requires order { at ≤ end }
    requires within { end ≤ length bytes.now }
    ensures counted { IfOk result (λ c. length c.payload.now ≡ c.count) }
    ensures holds { IfOk result (λ c. c.payload.now ≡ slice_range bytes.now (c.end - length c.payload.now) c.end) }
    ensures exact { MatchResult result (λ c. run counted_bytes bytes.now end at ≡ Ok (record { value = c.payload.now; place = c.end })) (λ e. run counted_bytes bytes.now end at ≡ Err e) }
{
    let count = read_within(bytes, at, end)?;
    let from = count.end;
    if count.value > (end - from) as u64 {
        return Err(Flaw::short(from));
    }
    let to = from + count.value as usize;
    Ok(Counted {
        count: count.value,
        payload: &bytes[from..to],
        end: to,
    })
}

/// Reads a count, and this many integers.
#[inline(always)]
fn read_integers<'a>(bytes: &'a [u8], at: usize, end: usize) -> Result<Counted<'a>, Flaw>
    requires order { at ≤ end }
    requires within { end ≤ length bytes.now }
    ensures counted { IfOk result (λ c. SpellAll c.payload.now (first_integers c.count c.payload.now) × (length (first_integers c.count c.payload.now) ≡ c.count)) }
    ensures holds { IfOk result (λ c. c.payload.now ≡ slice_range bytes.now (c.end - length c.payload.now) c.end) }
    ensures exact { MatchResult result (λ c. run counted_integers bytes.now end at ≡ Ok (record { value = first_integers c.count c.payload.now; place = c.end })) (λ e. run counted_integers bytes.now end at ≡ Err e) }
{
    let count = read_within(bytes, at, end)?;
    let from = count.end;
    let to = skip_integers(count.value, bytes, from, end)?;
    Ok(Counted {
        count: count.value,
        payload: &bytes[from..to],
        end: to,
    })
}

/// The offset after `count` integers. In most strings each has one byte.
fn skip_integers(count: u64, bytes: &[u8], at: usize, end: usize) -> Result<usize, Flaw>
    requires order { at ≤ end }
    requires within { end ≤ length bytes.now }
    ensures range { IfOk result (λ to. (at ≤ to) × (to ≤ end)) }
    ensures exact { result ≡ end_or_flaw (run (times count integer) bytes.now end at) }
{
    let from = skip_short_integers(count, bytes, at, end);
    skip_each_integer(count - (from - at) as u64, bytes, from, end)
}

/// The offset after the leading integers of one byte, at most `count` of them: that of the first longer
/// integer, the end, or the offset after them all.
#[inline(always)]
fn skip_short_integers(count: u64, bytes: &[u8], at: usize, end: usize) -> usize
    requires order { at ≤ end }
    requires within { end ≤ length bytes.now }
    ensures range { (at ≤ result) × (result ≤ end) × (result - at ≤ count) }
    ensures short { AreShort bytes.now at result }
    ensures longest { result < end → result - at < count → 128 ≤ slice_index bytes.now result }
{
    let to = at + count.min((end - at) as u64) as usize;
    let from = skip_short_eights(bytes, at, to);
    skip_short_bytes(bytes, from, to)
}

/// Whether the bytes from one offset up to another are integers of one byte each. If there are eight or more,
/// groups of eight are tested from the front, and then the last eight, which cover the rest.
#[inline(always)]
fn are_short(bytes: &[u8], from: usize, to: usize) -> bool
    requires order { from ≤ to }
    requires within { to ≤ length bytes.now }
    ensures { IsTrue result ↔ AreShort bytes.now from to }
{
    if to - from < 8 {
        return skip_short_bytes(bytes, from, to) == to;
    }
    let rest = skip_short_eights(bytes, from, to);
    to - rest < 8 && are_eight_short(bytes, to - 8)
}

/// The offset after the leading groups of eight integers of one byte.
#[inline(always)]
fn skip_short_eights(bytes: &[u8], at: usize, end: usize) -> usize
    requires order { at ≤ end }
    requires within { end ≤ length bytes.now }
    ensures range { (at ≤ result) × (result ≤ end) }
    ensures short { AreShort bytes.now at result }
    ensures longest { result + 8 ≤ end → ¬ AreShort bytes.now result (result + 8) }
{
    let mut place = at;
    while end - place >= 8 && are_eight_short(bytes, place) {
        place += 8;
    }
    place
}

/// Whether the eight bytes from an offset on are integers of one byte each. They are tested as one word,
/// in which none of the bytes' top bits may be set.
#[inline(always)]
fn are_eight_short(bytes: &[u8], at: usize) -> bool
    requires { at + 8 ≤ length bytes.now }
    ensures { IsTrue result ↔ AreShort bytes.now at (at + 8) }
{
    let Some(eight) = bytes[at..at + 8].first_chunk::<8>() else {
        return false;
    };
    u64::from_le_bytes(*eight) & TOP_BITS == 0
}

/// The offset of the first longer integer, or the end.
#[inline(always)]
fn skip_short_bytes(bytes: &[u8], at: usize, end: usize) -> usize
    requires order { at ≤ end }
    requires within { end ≤ length bytes.now }
    ensures range { (at ≤ result) × (result ≤ end) }
    ensures short { AreShort bytes.now at result }
    ensures longest { result < end → 128 ≤ slice_index bytes.now result }
{
    for place in at..end {
        if bytes[place] >= 128 {
            return place;
        }
    }
    end
}

/// The offset after `count` integers, read one by one.
#[tactic(auto, using(jfr_base::proofs::FormatEnds::ends), unfolding(jfr_base::specs::Formats::run))]
fn skip_each_integer(count: u64, bytes: &[u8], at: usize, end: usize) -> Result<usize, Flaw>
    requires order { at ≤ end }
    requires within { end ≤ length bytes.now }
    ensures range { IfOk result (λ to. (at ≤ to) × (to ≤ end)) }
    ensures exact { result ≡ end_or_flaw (run (times count integer) bytes.now end at) }
{
    let mut place = at;
    for _ in 0..count {
        place = read_within(bytes, place, end)?.end;
    }
    Ok(place)
}
