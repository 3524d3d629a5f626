//! The fields that lead to the names in a stack, by class.
//!
//! A name is looked up once for each class, and not for each value: a class may have many fields.
ghost use Rattle.std.specs.Prelude.{◌≡◌, ℕ, List, Option, IfOk, IfSome, option_and_then, option_map, slice_get};
ghost use Rattle.std.specs.Str.{chars};
ghost use Rattle.jfr_chunk.specs.Paths.{named_field};
ghost use Rattle.jfr_value.specs.Nodes.{IsValue, node_of};
ghost use Rattle.jfr_stacks.specs.Frames.{after_references, field_numbers};
ghost use Rattle.jfr_stacks.specs.Roles.{AreStackFields};

use jfr_base::NoMemory;
use jfr_chunk::Chunk;
use jfr_layout::Classes;
use jfr_path::{MOST_FOLLOWED, follow_references};
use jfr_value::{Node, Step, child};
use std::alloc::Global;
use std::marker::Model;

/// For each class of a chunk, the number of its field with a certain name, if it has one.
#[derive(Drop)]
pub(crate) struct FieldNumbers {
    numbers: Vec<Option<usize>>,
}

impl Model for FieldNumbers {
    ghost use Rattle.std.specs.Prelude.{ℕ, List, Option};

    ghost Value = { List (Option ℕ) };

    ghost view = { λ fields. fields.numbers.items };
}

impl FieldNumbers {
    /// The fields with this name, of these classes.
    pub(crate) fn of(alloc: Global, classes: &Classes, name: &str) -> Result<FieldNumbers, NoMemory>
        ensures { IfOk result (λ fields. fields ≡ field_numbers (chars name.now) classes.now) }
    {
        let mut numbers = Vec::new(alloc);
        for class in classes.as_slice() {
            numbers.push(class.fields.number(name))?;
        }
        Ok(FieldNumbers { numbers })
    }

    /// The number of the field in the class with this index; `None` if there is no such class or field.
    fn number(&self, index: usize) -> Option<usize>
        ensures { result ≡ option_and_then (λ number. number) (slice_get self.now index) }
    {
        *self.numbers.get(index)?
    }

    /// The field of a value; `None` exactly if there is no such field. It walks over the fields before it.
    pub(crate) fn field<'a>(&self, chunk: &Chunk<'a>, node: &Node<'a>) -> Option<Node<'a>>
        requires value { IsValue chunk.now.classes node.now }
        requires of_chunk { node.now.bytes.now ≡ chunk.now.bytes }
        ensures exact { (name : List ℕ) → self.now ≡ field_numbers name chunk.now.classes → option_map node_of result ≡ named_field chunk.now name (node_of node.now) }
        ensures bytes { IfSome result (λ field. field.bytes.now ≡ chunk.now.bytes) }
        ensures value { IfSome result (IsValue chunk.now.classes) }
    {
        let classes = chunk.classes();
        let number = self.number(classes.index_of(node.shape.class)?)?;
        child(classes, node, &Step::Field(number))
    }

    /// As `field`, after following references.
    pub(crate) fn find<'a>(&self, chunk: &Chunk<'a>, node: &Node<'a>) -> Option<Node<'a>>
        requires value { IsValue chunk.now.classes node.now }
        requires of_chunk { node.now.bytes.now ≡ chunk.now.bytes }
        ensures exact { (name : List ℕ) → self.now ≡ field_numbers name chunk.now.classes → option_map node_of result ≡ named_field chunk.now name (after_references 16 chunk.now (node_of node.now)) }
        ensures bytes { IfSome result (λ field. field.bytes.now ≡ chunk.now.bytes) }
        ensures value { IfSome result (IsValue chunk.now.classes) }
    {
        let holder = follow_references(chunk, node, MOST_FOLLOWED);
        self.field(chunk, &holder)
    }
}

/// The fields that lead from a stack trace to the names in its frames.
#[derive(Drop)]
pub(crate) struct StackFields {
    /// `frames`, of a stack trace.
    pub(crate) frames: FieldNumbers,
    /// `method`, of a frame.
    pub(crate) method: FieldNumbers,
    /// `type`, of a method: its class.
    pub(crate) class: FieldNumbers,
    /// `name`, of a method or a class.
    pub(crate) name: FieldNumbers,
    /// `string`, of a name.
    pub(crate) string: FieldNumbers,
}

impl StackFields {
    /// The fields of these classes.
    pub(crate) fn of(alloc: Global, classes: &Classes) -> Result<StackFields, NoMemory>
        ensures { IfOk result (AreStackFields classes.now) }
    {
        let frames = FieldNumbers::of(alloc, classes, "frames")?;
        let method = FieldNumbers::of(alloc, classes, "method")?;
        let class = FieldNumbers::of(alloc, classes, "type")?;
        let name = FieldNumbers::of(alloc, classes, "name")?;
        let string = FieldNumbers::of(alloc, classes, "string")?;
        Ok(StackFields {
            frames,
            method,
            class,
            name,
            string,
        })
    }
}
