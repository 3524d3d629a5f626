//! The walk to a value's end over keys and strings, which passes the keys to a visitor.
ghost use Rattle.std.specs.Prelude.{◌≡◌, ◌+◌, ◌≤◌, IfOk, true};
ghost use Rattle.jfr_base.specs.Formats.{integer, run, end_or_flaw};
ghost use Rattle.jfr_text.specs.Strings.{string_format};
ghost use Rattle.jfr_layout.specs.declared.kind.Kind.TheVariants as kinds;
ghost use Rattle.jfr_value.specs.Leaves.{key_between};
ghost use Rattle.jfr_value.specs.Values.{key_of};
ghost use Rattle.jfr_value.specs.Reading.{base_format};
ghost use Rattle.jfr_value.specs.Visits.{TakesAll};

use crate::walk::Walk;
use crate::{KeyAt, VisitKey};
use jfr_base::{Flaw, read_short, read_within};
use jfr_text::{StringKind, is_bare, is_key, read_string, short_units_end};

/// The offset after a reference, whose key is passed to the visitor with its place. Most keys have one byte or
/// two.
#[inline(always)]
pub(crate) fn key_end<C, V: VisitKey<C>>(
    walk: Walk<'_, '_, C>,
    class: u64,
    at: usize,
    visitor: &mut V,
) -> Result<usize, Flaw>
    requires order { at ≤ walk.end }
    requires ready { V.ready visitor.old walk.with.now }
    ensures exact { result ≡ end_or_flaw (run integer walk.entry.bytes.now walk.entry.end at) }
    ensures range { IfOk result (λ to. (at ≤ to) × (to ≤ walk.entry.end)) }
    ensures visited { IfOk (run integer walk.entry.bytes.now walk.entry.end at) (λ key. V.takes walk.entry.with.now (record { class = class; key = key.value; at = at; end = key.place }) visitor.old visitor.new) }
    ensures ready { V.ready visitor.new walk.entry.with.now }
{
    match read_short(walk.bytes, at, walk.end) {
        Some(integer) => {
            let key = KeyAt {
                class,
                key: integer.value,
                at,
                end: integer.end,
            };
            visitor.visit_key(walk.with, key);
            Ok(integer.end)
        }
        None => far_key_end(walk, class, at, visitor),
    }
}

/// The offset after a key of any length. The result is unpacked here, so that the fast path of `key_end`
/// keeps its own in registers.
#[inline(always)]
fn far_key_end<C, V: VisitKey<C>>(
    walk: Walk<'_, '_, C>,
    class: u64,
    at: usize,
    visitor: &mut V,
) -> Result<usize, Flaw>
    requires order { at ≤ walk.end }
    requires ready { V.ready visitor.old walk.with.now }
    ensures exact { result ≡ end_or_flaw (run integer walk.entry.bytes.now walk.entry.end at) }
    ensures range { IfOk result (λ to. (at ≤ to) × (to ≤ walk.entry.end)) }
    ensures visited { IfOk (run integer walk.entry.bytes.now walk.entry.end at) (λ key. V.takes walk.entry.with.now (record { class = class; key = key.value; at = at; end = key.place }) visitor.old visitor.new) }
    ensures ready { V.ready visitor.new walk.entry.with.now }
{
    let to = long_key_end(walk, class, at, visitor)?;
    Ok(to)
}

/// The offset after a key of any length, or the flaw of one that doesn't end by `walk.end`, out of line.
#[tactic(auto, unfolding(jfr_base::specs::Formats::run))]
#[inline(never)]
fn long_key_end<C, V: VisitKey<C>>(
    walk: Walk<'_, '_, C>,
    class: u64,
    at: usize,
    visitor: &mut V,
) -> Result<usize, Flaw>
    requires order { at ≤ walk.end }
    requires ready { V.ready visitor.old walk.with.now }
    ensures exact { result ≡ end_or_flaw (run integer walk.entry.bytes.now walk.entry.end at) }
    ensures range { IfOk result (λ to. (at ≤ to) × (to ≤ walk.entry.end)) }
    ensures visited { IfOk (run integer walk.entry.bytes.now walk.entry.end at) (λ key. V.takes walk.entry.with.now (record { class = class; key = key.value; at = at; end = key.place }) visitor.old visitor.new) }
    ensures ready { V.ready visitor.new walk.entry.with.now }
{
    match read_within(walk.bytes, at, walk.end) {
        Ok(integer) => {
            let key = KeyAt {
                class,
                key: integer.value,
                at,
                end: integer.end,
            };
            visitor.visit_key(walk.with, key);
            Ok(integer.end)
        }
        Err(flaw) => Err(flaw),
    }
}

/// The offset after a string. If it is a key, this is passed to the visitor. Most strings are a key, null,
/// empty, or UTF-16 in integers of one byte.
#[inline(always)]
pub(crate) fn text_end<C, V: VisitKey<C>>(
    walk: Walk<'_, '_, C>,
    class: u64,
    at: usize,
    visitor: &mut V,
) -> Result<usize, Flaw>
    requires order { at ≤ walk.end }
    requires ready { V.ready visitor.old walk.with.now }
    ensures exact { result ≡ end_or_flaw (run (base_format kinds.Text) walk.entry.bytes.now walk.entry.end at) }
    ensures range { IfOk result (λ to. (at ≤ to) × (to ≤ walk.entry.end)) }
    ensures visited { IfOk (run (string_format true) walk.entry.bytes.now walk.entry.end at) (λ got.
        TakesAll (V.takes walk.entry.with.now) (key_between class (at + 1) got.place (key_of got.value)) visitor.old visitor.new) }
    ensures ready { V.ready visitor.new walk.entry.with.now }
{
    if is_bare(walk.bytes, at, walk.end) {
        return Ok(at + 1);
    }
    if is_key(walk.bytes, at, walk.end) {
        return key_end(walk, class, at + 1, visitor);
    }
    if let Some(to) = short_units_end(walk.bytes, at, walk.end) {
        return Ok(to);
    }
    far_text_end(walk, class, at, visitor)
}

/// The offset after a string of any kind. The result is unpacked here, so that the fast paths of `text_end`
/// keep theirs in registers.
#[inline(always)]
fn far_text_end<C, V: VisitKey<C>>(
    walk: Walk<'_, '_, C>,
    class: u64,
    at: usize,
    visitor: &mut V,
) -> Result<usize, Flaw>
    requires order { at ≤ walk.end }
    requires ready { V.ready visitor.old walk.with.now }
    ensures exact { result ≡ end_or_flaw (run (base_format kinds.Text) walk.entry.bytes.now walk.entry.end at) }
    ensures range { IfOk result (λ to. (at ≤ to) × (to ≤ walk.entry.end)) }
    ensures visited { IfOk (run (string_format true) walk.entry.bytes.now walk.entry.end at) (λ got.
        TakesAll (V.takes walk.entry.with.now) (key_between class (at + 1) got.place (key_of got.value)) visitor.old visitor.new) }
    ensures ready { V.ready visitor.new walk.entry.with.now }
{
    let to = long_text_end(walk, class, at, visitor)?;
    Ok(to)
}

/// The offset after a string of any kind, out of line.
#[inline(never)]
fn long_text_end<C, V: VisitKey<C>>(
    walk: Walk<'_, '_, C>,
    class: u64,
    at: usize,
    visitor: &mut V,
) -> Result<usize, Flaw>
    requires order { at ≤ walk.end }
    requires ready { V.ready visitor.old walk.with.now }
    ensures exact { result ≡ end_or_flaw (run (base_format kinds.Text) walk.entry.bytes.now walk.entry.end at) }
    ensures range { IfOk result (λ to. (at ≤ to) × (to ≤ walk.entry.end)) }
    ensures visited { IfOk (run (string_format true) walk.entry.bytes.now walk.entry.end at) (λ got.
        TakesAll (V.takes walk.entry.with.now) (key_between class (at + 1) got.place (key_of got.value)) visitor.old visitor.new) }
    ensures ready { V.ready visitor.new walk.entry.with.now }
{
    match read_string(walk.bytes, at, walk.end) {
        Ok(string) => {
            match string.kind {
                StringKind::Key => {
                    let key_in_string = KeyAt {
                        class,
                        key: string.key,
                        at: at + 1,
                        end: string.end,
                    };
                    visitor.visit_key(walk.with, key_in_string);
                }
                _ => {}
            }
            Ok(string.end)
        }
        Err(flaw) => Err(flaw),
    }
}
