//! Finding the classes that a scrubbed chunk needs.
//!
//! A class is needed if it isn't an event class, if a kept event has it, or if the class element of a needed
//! class refers to it.
ghost use Rattle.std.specs.Prelude.{◌≡◌, ◌||◌, ◌∷◌, [], ℕ, List, false, not, Ok, Some, codes, length, map, replicate, if◌then◌else◌, IfOk};
ghost use Rattle.std.specs.List.{flat_map};
ghost use Rattle.std.specs.Option.{option_map_or, option_to_list};
ghost use Rattle.jfr_layout.specs.Classes.{Sound, class_index, is_event_class};
ghost use Rattle.jfr_meta.specs.Described.{class_elements, described, id_attribute};
ghost use Rattle.jfr_worklist.specs.Marks.{those, is_marked};
ghost use Rattle.jfr_worklist.specs.Putting.{Puts};
ghost use Rattle.jfr_meta.specs.Stays.{IsStay, first_ids, ids_below, ids_with, is_in, next_classes, stay_marks};
ghost use Rattle.jfr_meta.specs.Held.{body_in, stays_of};
ghost use Rattle.jfr_meta.specs.Trees.{Tree};

use crate::described::class_elements;
use crate::field::id_attribute;
use crate::{Element, Elements, Ids, Metadata};
use jfr_base::{NoMemory, Words};
use jfr_layout::Classes;
use jfr_worklist::Worklist;
use std::alloc::Global;

/// Marks the class with this id, if there is one.
fn put_class(list: &mut Worklist, classes: &Classes, id: u64)
    requires size { length list.old.flags.items ≡ length classes.now }
    ensures puts { Puts (those (class_index classes.now) (id ∷ [])) list.old list.new }
{
    if let Some(index) = classes.index_of(id) {
        list.put(index);
    }
}

/// Marks the class to which the element's own attribute `class` refers, if it has this attribute.
fn put_own(list: &mut Worklist, classes: &Classes, strings: &Words, element: &Element)
    requires size { length list.old.flags.items ≡ length classes.now }
    ensures puts { Puts (those (class_index classes.now) (option_to_list (id_attribute strings.now element.now (codes "class")))) list.old list.new }
{
    if let Some(id) = id_attribute(strings, element, "class") {
        put_class(list, classes, id);
    }
}

/// Marks the classes to which the elements below this one refer.
#[cycle(below)]
fn put_below(list: &mut Worklist, classes: &Classes, strings: &Words, element: &Element)
    requires size { length list.old.flags.items ≡ length classes.now }
    ensures puts { Puts (those (class_index classes.now) (ids_below strings.now element.now)) list.old list.new }
{
    put_each(list, classes, strings, element.children());
}

/// Marks the classes to which these elements and those below them refer.
#[cycle(below)]
fn put_each(list: &mut Worklist, classes: &Classes, strings: &Words, elements: &Elements)
    requires size { length list.old.flags.items ≡ length classes.now }
    ensures puts { Puts (those (class_index classes.now) (flat_map (ids_with strings.now) elements.now)) list.old list.new }
{
    for element in elements.as_slice() {
        put_own(list, classes, strings, element);
        put_below(list, classes, strings, element);
    }
}

/// Marks the class with this id if it isn't an event class or is used.
fn put_first_id(list: &mut Worklist, classes: &Classes, used: &Ids, id: u64)
    requires size { length list.old.flags.items ≡ length classes.now }
    ensures puts { Puts (those (class_index classes.now) (if not (is_event_class classes.now id) || is_in used.now id then id ∷ [] else [])) list.old list.new }
{
    if !classes.is_event(id) {
        put_class(list, classes, id);
        return;
    }
    if used.has(id) {
        put_class(list, classes, id);
    }
}

/// Marks the classes that aren't event classes or are used.
fn put_first(list: &mut Worklist, classes: &Classes, used: &Ids)
    requires size { length list.old.flags.items ≡ length classes.now }
    ensures puts { Puts (those (class_index classes.now) (first_ids classes.now (is_in used.now))) list.old list.new }
{
    for class in classes.as_slice() {
        put_first_id(list, classes, used, class.id);
    }
}

/// Marks the classes to which the class element with this number refers.
fn put_number(
    list: &mut Worklist,
    classes: &Classes,
    strings: &Words,
    elements: &[&Element],
    number: usize,
)
    requires size { length list.old.flags.items ≡ length classes.now }
    ensures puts { Puts (next_classes strings.now (map (λ e. e.now) elements.now) classes.now number) list.old list.new }
{
    if number < elements.len() {
        put_below(list, classes, strings, elements[number]);
    }
}

/// Marks the needed classes: first those that aren't event classes or are used; then, for each marked class
/// in the order of marking, those to which its class element refers.
fn put_staying(
    list: &mut Worklist,
    classes: &Classes,
    strings: &Words,
    elements: &[&Element],
    used: &Ids,
)
    requires fresh { list.old.flags.items ≡ replicate (length classes.now) false }
    ensures exact { list.new.flags.items ≡ stay_marks strings.now (map (λ e. e.now) elements.now) classes.now (is_in used.now) }
{
    put_first(list, classes, used);
    let mut next: usize = 0;
    while next < list.order.len() {
        let number = list.order[next];
        put_number(list, classes, strings, elements, number);
        next += 1;
    }
}

/// The ids of the marked classes.
fn marked_ids(alloc: Global, classes: &Classes, flags: &[bool]) -> Result<Ids, NoMemory>
    requires size { length flags.now ≡ length classes.now }
    requires sound { Sound classes.now }
    ensures ok { IfOk result (λ ids. (id : ℕ) → is_in ids id ≡ option_map_or (is_marked flags.now) (class_index classes.now id) false) }
{
    let mut ids = Ids::new(alloc);
    for (at, is_marked) in flags.iter().enumerate() {
        if !*is_marked {
            continue;
        }
        ids.insert(classes.class_at(at).id)?;
    }
    Ok(ids)
}

/// The ids of the needed classes, given the ids of those that kept events use. It is the smallest set that
/// has each class that isn't an event class, each used class, and each class to which the class element of a
/// class in the set refers, by the attribute `class` of an element below it.
pub fn staying(alloc: Global, metadata: &Metadata, used: &Ids) -> Result<Ids, NoMemory>
    requires read { described (body_in metadata.now) ≡ Ok metadata.now.classes }
    ensures exact { IfOk result (λ stay. (id : ℕ) → is_in stay id ≡ stays_of (body_in metadata.now) metadata.now.classes (is_in used.now) id) }
    ensures least { IfOk result (λ stay. (ts : List Tree) → class_elements metadata.now.strings metadata.now.root ≡ Some ts → IsStay metadata.now.strings ts metadata.now.classes (is_in used.now) (is_in stay)) }
{
    let Some(elements) = class_elements(alloc, &metadata.strings, &metadata.root)? else {
        return Ok(Ids::new(alloc));
    };
    let mut list = Worklist::new(alloc, metadata.classes.len())?;
    put_staying(
        &mut list,
        &metadata.classes,
        &metadata.strings,
        &elements,
        used,
    );
    marked_ids(alloc, &metadata.classes, &list.flags)
}
