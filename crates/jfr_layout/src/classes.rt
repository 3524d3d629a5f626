//! Sound classes.
ghost use Rattle.std.specs.Prelude.{◌≡◌, ◌<◌, ◌↔◌, [], length, false, IsTrue, OnOk, IfOk, IfErr, IfSome, MatchOption, slice_get, option_map, option_and_then};
ghost use Rattle.std.specs.Option.{option_copied};
ghost use Rattle.std.specs.Str.{chars};
ghost use Rattle.jfr_layout.specs.Classes.{class_faults, Sound, IsFirstFlaw, find_class, class_index, kind_of, field_number, is_event_class, AreFieldLayouts, IsEventLayout};
ghost use Rattle.jfr_layout.specs.Events.{event_index};
ghost use Rattle.jfr_layout.specs.Names.{AreAllNumbered};
ghost use Rattle.jfr_layout.specs.Resolved.{IsClassLayout};

use crate::event::{event_index, event_indices};
use crate::inline::{check_depth, check_filled};
use crate::numbers::number_fields;
use crate::resolved::Resolved;
use crate::{ClassFault, ClassInfo, ClassLayout, ClassList, FieldLayout, Kind, Shape};
use std::alloc::Global;
use std::marker::Model;

/// Classes that are sound: no two classes have the same id, and no two fields of a class the same name; each
/// field's class is known, and has fields if it is composite and its values are inline; and no class begins a
/// chain of more than 32 inline steps.
#[derive(Drop)]
pub struct Classes {
    resolved: Resolved,
    // The indices of the event classes, by id, for the ids of the direct table.
    events: Vec<Option<usize>>,
}

impl Model for Classes {
    ghost use Rattle.std.specs.Prelude.{List};
    ghost use Rattle.jfr_layout.specs.declared.class.ClassInfo.{ClassInfo};
    ghost use Rattle.jfr_layout.specs.Classes.{Sound};
    ghost use Rattle.jfr_layout.specs.Events.{AreEventIndices};

    ghost Value = { List ClassInfo };

    ghost view = { λ c. c.resolved };

    ghost invariant = { λ c. Sound c.resolved × AreEventIndices c.resolved c.events.items };
}

impl Classes {
    /// The classes of a list, if they are sound.
    ///
    /// `Flawed` exactly if they aren't, with the first flaw of the first stage that has one. The stages are
    /// `ClassTwice` and `FieldTwice` together, `UnknownType`, `EmptyInline`, `InlineDeep`, each over the
    /// whole list in its order. `Memory` if memory runs out.
    pub fn make(alloc: Global, list: ClassList) -> Result<Classes, ClassFault>
        ensures ok { OnOk result (Sound list) }
        ensures exact { IfOk result (λ classes. classes ≡ list) }
        ensures refused { IfErr result (IsFirstFlaw (class_faults list)) }
    {
        let numbers = number_fields(alloc, &list)?;
        Classes::make_numbered(alloc, list, &numbers)
    }

    /// As [`Classes::make`], with a number for each field's name: within a class, two fields have the same
    /// number exactly if they have the same name. So no names are compared, which would be slow for many long
    /// names with a common prefix.
    pub fn make_numbered(
        alloc: Global,
        list: ClassList,
        numbers: &[Vec<u64>],
    ) -> Result<Classes, ClassFault>
        requires numbered { AreAllNumbered list numbers.now }
        ensures ok { OnOk result (Sound list) }
        ensures exact { IfOk result (λ classes. classes ≡ list) }
        ensures refused { IfErr result (IsFirstFlaw (class_faults list)) }
    {
        let resolved = Resolved::make(alloc, list, numbers)?;
        check_filled(&resolved)?;
        check_depth(alloc, &resolved)?;
        let events = event_indices(alloc, &resolved, resolved.near_len())?;
        Ok(Classes { resolved, events })
    }

    /// A call that does nothing, for proofs: its clause holds for all classes, and laws of values require it.
    pub fn are_sound(&self)
        ensures { Sound self.now }
    {
        // The proof gets the invariant of `self` by reading a field.
        let _ = &self.events;
    }

    /// The classes, in order.
    pub fn as_slice(&self) -> &[ClassInfo]
        ensures { result.now ≡ self.now }
    {
        self.resolved.as_slice()
    }

    /// The number of classes.
    pub fn len(&self) -> usize
        ensures exact { result ≡ length self.now }
        ensures sound { Sound self.now }
    {
        self.resolved.len()
    }

    /// Whether there is no class.
    pub fn is_empty(&self) -> bool
        ensures { IsTrue result ↔ (self.now ≡ []) }
    {
        self.resolved.is_empty()
    }

    /// The class with this index, from 0, if there is one.
    pub fn get(&self, at: usize) -> Option<&ClassInfo>
        ensures { option_copied result ≡ slice_get self.now at }
    {
        self.resolved.get(at)
    }

    /// The class with this id, if there is one.
    pub fn find(&self, id: u64) -> Option<&ClassInfo>
        ensures { option_copied result ≡ find_class self.now id }
    {
        let index = self.resolved.index_of(id)?;
        Some(self.resolved.class_at(index))
    }

    /// The kind of the class with this id, if there is one.
    pub fn kind(&self, id: u64) -> Option<Kind>
        ensures { result ≡ option_map (λ c. kind_of c.name) (find_class self.now id) }
    {
        let index = self.resolved.index_of(id)?;
        Some(self.resolved.kind_at(index))
    }

    /// The number of the field with this name in the class with this id, if there are such a class and field.
    pub fn field_named(&self, id: u64, name: &str) -> Option<usize>
        ensures { result ≡ option_and_then (λ c. field_number c.fields (chars name.now)) (find_class self.now id) }
    {
        self.find(id)?.fields.number(name)
    }

    /// Whether records of this type are events: whether the type is the id of an event class.
    pub fn is_event(&self, id: u64) -> bool
        ensures { result ≡ is_event_class self.now id }
    {
        self.event_layout(id).is_some()
    }

    /// The layout of an event's fields, taken as one inline value of its class; `None` exactly if records of
    /// this type aren't events.
    #[inline]
    pub fn event_layout(&self, id: u64) -> Option<FieldLayout>
        ensures { MatchOption result (is_event_class self.now id ≡ false) (IsEventLayout self.now id) }
    {
        let index = self.event_index(id)?;
        Some(FieldLayout::new(Shape::inline(id), index, Kind::Composite))
    }

    /// The index of the class with this id, if records of this type are events.
    #[inline]
    fn event_index(&self, id: u64) -> Option<usize>
        ensures { result ≡ event_index self.now id }
    {
        match self.events.get(id as usize) {
            Some(index) => *index,
            None => self.far_event_index(id),
        }
    }

    /// As `event_index`, for an id past the end of the direct table.
    #[cold]
    #[inline(never)]
    fn far_event_index(&self, id: u64) -> Option<usize>
        ensures { result ≡ event_index self.now id }
    {
        event_index(&self.resolved, id)
    }

    /// The index of the class with this id, if there is one.
    pub fn index_of(&self, id: u64) -> Option<usize>
        ensures exact { result ≡ class_index self.now id }
        ensures class { option_and_then (slice_get self.now) result ≡ find_class self.now id }
        ensures within { IfSome result (λ index. index < length self.now) }
        ensures sound { Sound self.now }
    {
        self.resolved.index_of(id)
    }

    /// The class with this index.
    pub fn class_at(&self, index: usize) -> &ClassInfo
        requires { index < length self.now }
        ensures { slice_get self.now index ≡ Some result.now }
    {
        self.resolved.class_at(index)
    }

    /// The kind of the class with this index.
    pub fn kind_at(&self, index: usize) -> Kind
        requires { index < length self.now }
        ensures { IfSome (slice_get self.now index) (λ c. result ≡ kind_of c.name) }
    {
        self.resolved.kind_at(index)
    }

    /// The layout of the class with this index: how the values of its fields are spelled, and which of them
    /// are passed at once.
    pub fn class_layout(&self, index: usize) -> &ClassLayout
        requires { index < length self.now }
        ensures { IfSome (slice_get self.now index) (λ c. IsClassLayout self.now c result.now) }
    {
        self.resolved.class_layout(index)
    }

    /// The layouts of the fields of the class with this index, in order.
    pub fn layouts(&self, index: usize) -> &[FieldLayout]
        requires { index < length self.now }
        ensures exact { IfSome (slice_get self.now index) (λ c. AreFieldLayouts self.now c.fields result.now) }
    {
        self.resolved.layouts(index)
    }
}
