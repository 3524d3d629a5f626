//! Values from the words of their leaves.
ghost use Rattle.std.specs.Prelude.{◌≡◌, ◌∷◌, ◌+◌, [], MatchResult, true};
ghost use Rattle.std.specs.List.{AllByRecursion};
ghost use Rattle.jfr_layout.specs.Classes.{IsFieldLayout};
ghost use Rattle.jfr_layout.specs.declared.shape.Shape.{Shape};
ghost use Rattle.jfr_value.specs.Values.{IsLayoutOrKey};
ghost use Rattle.jfr_value.specs.Walks.{DepthBound};
ghost use Rattle.jfr_build.specs.Taking.{base_taken, class_taken, each_taken, reference_taken, shape_taken, value_taken};
ghost use Rattle.jfr_build.specs.Writing.{Writes, wrote, wrote_all};

use crate::leaf::id_after;
use crate::pieces::RestOfLine;
use crate::value_bytes::{ValueBytes, ValueFault};
use jfr_layout::{Classes, FieldLayout, Form, Kind};
use jfr_value::{LEVELS, item_layout};

/// Takes the words of a value with this layout, and appends the value.
pub fn push_value(
    classes: &Classes,
    layout: &FieldLayout,
    words: &mut RestOfLine<'_>,
    out: &mut ValueBytes,
) -> Result<(), ValueFault>
    requires layout { IsFieldLayout classes.now layout.now }
    ensures exact { Writes (wrote out.old (value_taken classes.now layout.now.shape words.old)) result out.new words.new }
{
    // Shows the prover that the classes are sound.
    let _count = classes.len();
    push_layout(classes, layout, words, out, LEVELS)
}

/// Takes the first word; the value is bad if there is none.
fn next_word<'a>(words: &mut RestOfLine<'a>) -> Result<&'a str, ValueFault>
    ensures { MatchResult result (λ word. words.old ≡ word.now ∷ words.new) (λ fault. (fault ≡ ValueFault.Bad) × (words.old ≡ [])) }
{
    words.next().ok_or(ValueFault::Bad)
}

/// Takes the word of a reference.
fn push_reference(words: &mut RestOfLine<'_>, out: &mut ValueBytes) -> Result<(), ValueFault>
    ensures exact { (s : Shape) → Writes (wrote out.old (reference_taken s words.old)) result out.new words.new }
{
    let word = next_word(words)?;
    let Some(key) = id_after(word, '#') else {
        return Err(ValueFault::Bad);
    };
    out.push_var(key)?;
    Ok(())
}

/// Takes the word of a value of a base name.
fn push_base(kind: Kind, words: &mut RestOfLine<'_>, out: &mut ValueBytes) -> Result<(), ValueFault>
    ensures exact { (s : Shape) → Writes (wrote out.old (base_taken kind s words.old)) result out.new words.new }
{
    let word = next_word(words)?;
    out.push_word(kind, word)
}

/// Takes the words of a value with this layout.
#[cycle(values)]
fn push_layout(
    classes: &Classes,
    layout: &FieldLayout,
    words: &mut RestOfLine<'_>,
    out: &mut ValueBytes,
    levels: u32,
) -> Result<(), ValueFault>
    requires placed { IsLayoutOrKey classes.now layout.now }
    requires depth { DepthBound classes.now levels layout.now.shape }
    ensures exact { Writes (wrote out.old (shape_taken (class_taken (levels + 1) classes.now) layout.now.shape words.old)) result out.new words.new }
{
    match layout.form {
        Form::Key => push_reference(words, out),
        Form::Array => push_array(classes, layout, words, out, levels),
        Form::Fields => {
            let fields = classes.layouts(layout.class_index);
            push_fields(classes, fields, words, out, levels - 1)
        }
        Form::Integer | Form::Raw(_) | Form::Text => push_base(layout.kind, words, out),
    }
}

/// Takes the words of values with these layouts, one after another.
#[cycle(values)]
fn push_fields(
    classes: &Classes,
    layouts: &[FieldLayout],
    words: &mut RestOfLine<'_>,
    out: &mut ValueBytes,
    levels: u32,
) -> Result<(), ValueFault>
    requires layouts { AllByRecursion (IsFieldLayout classes.now) layouts.now }
    requires depth { AllByRecursion (λ s. DepthBound classes.now levels s.shape) layouts.now }
    ensures exact { Writes (wrote_all out.old (each_taken layouts.now (λ s. shape_taken (class_taken (levels + 1) classes.now) s.shape) words.old)) result out.new words.new }
{
    for layout in layouts {
        push_layout(classes, layout, words, out, levels)?;
    }
    Ok(())
}

/// Takes the words of an array: its count, and this many items. It stops at the first bad item.
#[cycle(values)]
fn push_array(
    classes: &Classes,
    layout: &FieldLayout,
    words: &mut RestOfLine<'_>,
    out: &mut ValueBytes,
    levels: u32,
) -> Result<(), ValueFault>
    requires array { layout.now.shape.array ≡ true }
    requires placed { IsLayoutOrKey classes.now layout.now }
    requires depth { DepthBound classes.now levels layout.now.shape }
    ensures exact { Writes (wrote out.old (shape_taken (class_taken (levels + 1) classes.now) layout.now.shape words.old)) result out.new words.new }
{
    let word = next_word(words)?;
    let Some(count) = id_after(word, '[') else {
        return Err(ValueFault::Bad);
    };
    out.push_var(count)?;
    let item = item_layout(layout);
    for _ in 0..count {
        push_layout(classes, &item, words, out, levels)?;
    }
    Ok(())
}
