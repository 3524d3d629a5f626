//! Classes whose fields' classes are known, with what makes look-ups fast.
ghost use Rattle.std.specs.Prelude.{◌≡◌, ◌<◌, ◌++◌, ◌↔◌, [], length, map, IfOk, IfSome, IsSome, IsTrue, slice_get, option_and_then};
ghost use Rattle.std.specs.Option.{option_copied};
ghost use Rattle.jfr_base.specs.declared.reason.Reason.TheVariants.{UnknownType};
ghost use Rattle.jfr_layout.specs.Classes.{ReportsFirst, repeats, unknown, flaws_in, is_unknown, field_at, find_class, class_index, kind_of, step_class, extends_event, AreFieldLayouts};
ghost use Rattle.jfr_layout.specs.Names.{AreAllNumbered};
ghost use Rattle.jfr_layout.specs.Resolved.{AreClassLayouts, IsIndex, IsClassLayout};

use crate::fused::fused_of;
use crate::index::{Index, index_classes};
use crate::{ClassFault, ClassInfo, ClassLayout, ClassList, FieldLayout, Kind, is_text};
use jfr_base::{NoMemory, Reason};
use std::alloc::Global;
use std::marker::Model;

/// Classes in which no id repeats, no field's name repeats within its class, and each field's class is known.
#[derive(Drop)]
pub struct Resolved {
    list: ClassList,
    index: Index,
    kinds: Vec<Kind>,
    class_layouts: Vec<ClassLayout>,
}

impl Model for Resolved {
    ghost use Rattle.std.specs.Prelude.{List};
    ghost use Rattle.jfr_layout.specs.declared.class.ClassInfo.{ClassInfo};
    ghost use Rattle.jfr_layout.specs.Resolved.{IsResolved};

    ghost Value = { List ClassInfo };

    ghost view = { λ r. r.list };

    ghost invariant = { λ r. IsResolved r.list r.index r.kinds.items r.class_layouts.items };
}

/// The kind of each class.
fn kinds_of(alloc: Global, list: &ClassList) -> Result<Vec<Kind>, NoMemory>
    ensures exact { IfOk result (λ kinds. kinds.items ≡ map (λ c. kind_of c.name) list.now) }
{
    let mut kinds = Vec::new(alloc);
    for class in list.as_slice() {
        kinds.push(Kind::of(&class.name))?;
    }
    Ok(kinds)
}

/// Whether the class, which is of this kind, is composite and has the super type of events.
fn extends_event(class: &ClassInfo, kind: Kind) -> bool
    ensures { kind ≡ kind_of class.now.name → result ≡ extends_event class.now }
{
    match kind {
        Kind::Composite => {}
        _ => return false,
    }
    match &class.super_name {
        Some(name) => is_text(name, "jdk.jfr.Event"),
        None => false,
    }
}

/// The layouts of the fields of one class. A field whose class isn't defined is refused.
fn layouts_of(
    alloc: Global,
    list: &ClassList,
    index: &Index,
    kinds: &[Kind],
    class: usize,
) -> Result<Vec<FieldLayout>, ClassFault>
    requires indexed { IsIndex list.now index.now }
    requires kinds { kinds.now ≡ map (λ c. kind_of c.name) list.now }
    requires within { class < length list.now }
    ensures exact { IfSome (slice_get list.now class) (λ c. IfOk result (λ layouts. AreFieldLayouts list.now c.fields layouts.items)) }
    ensures judged { IfSome (slice_get list.now class) (λ c. ReportsFirst (flaws_in UnknownType (is_unknown list.now) class c.fields) result) }
{
    let fields = &list.at(class).fields;
    let mut layouts = Vec::with_capacity(alloc, fields.len())?;
    for (number, field) in fields.as_slice().iter().enumerate() {
        let shape = field.shape;
        match index.index_of(shape.class) {
            Some(class_index) => layouts.push(FieldLayout::new(
                shape,
                class_index,
                kinds[class_index],
            ))?,
            None => {
                return Err(ClassFault::Flawed {
                    class,
                    field: Some(number),
                    reason: Reason::UnknownType,
                });
            }
        }
    }
    Ok(layouts)
}

/// The layout of one class. A field whose class isn't defined is refused.
fn class_layout_of(
    alloc: Global,
    list: &ClassList,
    index: &Index,
    kinds: &[Kind],
    class: usize,
) -> Result<ClassLayout, ClassFault>
    requires indexed { IsIndex list.now index.now }
    requires kinds { kinds.now ≡ map (λ c. kind_of c.name) list.now }
    requires within { class < length list.now }
    ensures exact { IfSome (slice_get list.now class) (λ c. IfOk result (IsClassLayout list.now c)) }
    ensures judged { IfSome (slice_get list.now class) (λ c. ReportsFirst (flaws_in UnknownType (is_unknown list.now) class c.fields) result) }
{
    let layouts = layouts_of(alloc, list, index, kinds, class)?;
    let fused_fields = fused_of(alloc, &layouts)?;
    Ok(ClassLayout {
        layouts,
        fused_fields,
        is_event: extends_event(list.at(class), kinds[class]),
    })
}

/// The layouts of all classes, in order.
fn class_layouts_of(
    alloc: Global,
    list: &ClassList,
    index: &Index,
    kinds: &[Kind],
) -> Result<Vec<ClassLayout>, ClassFault>
    requires indexed { IsIndex list.now index.now }
    requires kinds { kinds.now ≡ map (λ c. kind_of c.name) list.now }
    ensures exact { IfOk result (λ class_layouts. AreClassLayouts list.now list.now class_layouts.items) }
    ensures judged { ReportsFirst (unknown list.now) result }
{
    let mut class_layouts = Vec::new(alloc);
    for at in 0..list.len() {
        class_layouts.push(class_layout_of(alloc, list, index, kinds, at)?)?;
    }
    Ok(class_layouts)
}

impl Resolved {
    /// Resolves the classes of all fields. A repeated id or name is refused, and so is a class that isn't
    /// defined. `numbers` has those of the names of each class's fields.
    pub fn make(
        alloc: Global,
        list: ClassList,
        numbers: &[Vec<u64>],
    ) -> Result<Resolved, ClassFault>
        requires { AreAllNumbered list numbers.now }
        ensures exact { IfOk result (λ made. made ≡ list) }
        ensures judged { ReportsFirst (repeats list ++ unknown list) result }
    {
        let index = index_classes(alloc, &list, numbers)?;
        let kinds = kinds_of(alloc, &list)?;
        let class_layouts = class_layouts_of(alloc, &list, &index, &kinds)?;
        Ok(Resolved {
            list,
            index,
            kinds,
            class_layouts,
        })
    }

    /// The classes, in order.
    pub fn as_slice(&self) -> &[ClassInfo]
        ensures { result.now ≡ self.now }
    {
        self.list.as_slice()
    }

    /// The number of classes.
    pub fn len(&self) -> usize
        ensures { result ≡ length self.now }
    {
        self.list.len()
    }

    /// Whether there is no class.
    pub fn is_empty(&self) -> bool
        ensures { IsTrue result ↔ (self.now ≡ []) }
    {
        self.list.is_empty()
    }

    /// The class with this index, if there is one.
    pub fn get(&self, at: usize) -> Option<&ClassInfo>
        ensures { option_copied result ≡ slice_get self.now at }
    {
        self.list.get(at)
    }

    /// The class with this index.
    pub fn class_at(&self, index: usize) -> &ClassInfo
        requires { index < length self.now }
        ensures { slice_get self.now index ≡ Some result.now }
    {
        self.list.at(index)
    }

    /// The index of the class with this id, if there is one.
    pub fn index_of(&self, id: u64) -> Option<usize>
        ensures exact { result ≡ class_index self.now id }
        ensures class { option_and_then (slice_get self.now) result ≡ find_class self.now id }
        ensures within { IfSome result (λ index. index < length self.now) }
    {
        self.index.index_of(id)
    }

    /// The length of the index's direct table, which is a good length for other tables by id.
    pub(crate) fn near_len(&self) -> usize {
        self.index.near_len()
    }

    /// The kind of the class with this index.
    pub fn kind_at(&self, index: usize) -> Kind
        requires { index < length self.now }
        ensures { IfSome (slice_get self.now index) (λ c. result ≡ kind_of c.name) }
    {
        self.kinds[index]
    }

    /// The layout of the class with this index.
    pub fn class_layout(&self, index: usize) -> &ClassLayout
        requires { index < length self.now }
        ensures { IfSome (slice_get self.now index) (λ c. IsClassLayout self.now c result.now) }
    {
        &self.class_layouts[index]
    }

    /// Whether the class with this index is composite and has the super type of events.
    pub fn extends_event(&self, index: usize) -> bool
        requires { index < length self.now }
        ensures { IfSome (slice_get self.now index) (λ c. result ≡ extends_event c) }
    {
        self.class_layout(index).is_event
    }

    /// The layouts of the fields of the class with this index, in order.
    pub fn layouts(&self, index: usize) -> &[FieldLayout]
        requires { index < length self.now }
        ensures { IfSome (slice_get self.now index) (λ c. AreFieldLayouts self.now c.fields result.now) }
    {
        &self.class_layout(index).layouts
    }

    /// The index of the class to which the inline step by this field goes; `None` exactly if the field has no
    /// inline step.
    pub fn step(&self, index: usize, number: usize) -> Option<usize>
        requires { IsSome (field_at self.now index number) }
        ensures exact { IfSome (field_at self.now index number) (λ f. option_and_then (slice_get self.now) result ≡ step_class self.now f) }
        ensures within { IfSome result (λ target. target < length self.now) }
    {
        let layout = self.layouts(index)[number];
        if layout.shape.constant {
            return None;
        }
        match layout.kind {
            Kind::Composite => Some(layout.class_index),
            _ => None,
        }
    }
}
