//! The depth of a value in a text, and how deep the parts below it may be.
ghost use Rattle.std.specs.Prelude.{◌≡◌, ◌+◌, ◌-◌, ◌≤◌, false};
ghost use Rattle.jfr_show.specs.Depths.{deepest};

use jfr_chunk::Chunk;
use jfr_value::LEVELS;

/// How deep the parts below a value may be.
#[derive(Clone, Copy)]
pub(crate) struct Reach {
    /// The number of references that are still followed.
    pub(crate) references: u8,
    /// The most composite values that can be nested from here on.
    pub(crate) composites: u32,
}

impl Reach {
    /// The reach of an event.
    pub(crate) fn of_event(references: u8) -> Reach
        ensures { result ≡ record { references = references; composites = 33 } }
    {
        Reach {
            references,
            composites: LEVELS,
        }
    }

    /// The reach of the fields of a composite value.
    pub(crate) fn of_fields(self) -> Reach
        requires { 1 ≤ self.composites }
        ensures { result ≡ record { references = self.references; composites = self.composites - 1 } }
    {
        Reach {
            references: self.references,
            composites: self.composites - 1,
        }
    }

    /// The reach of a constant, after its reference is followed.
    pub(crate) fn of_constant(self) -> Reach
        requires { 1 ≤ self.references }
        ensures { result ≡ record { references = self.references - 1; composites = 33 } }
    {
        Reach {
            references: self.references - 1,
            composites: LEVELS,
        }
    }
}

/// The level of a value in a text, and how deep the parts below it may be.
#[derive(Clone, Copy)]
pub(crate) struct Depth {
    pub(crate) reach: Reach,
    /// The number of levels by which the value is indented.
    pub(crate) level: usize,
}

impl Depth {
    /// The depth of an event.
    pub(crate) fn of_event(references: u8) -> Depth
        ensures { result ≡ record { reach = record { references = references; composites = 33 }; level = 0 } }
    {
        Depth {
            reach: Reach::of_event(references),
            level: 0,
        }
    }

    /// The depth of the fields of a composite value.
    pub(crate) fn of_fields(self) -> Depth
        requires composites { 1 ≤ self.reach.composites }
        requires level { deepest self false ≤ 1000 }
        ensures { result ≡ record { reach = record { references = self.reach.references; composites = self.reach.composites - 1 }; level = self.level + 1 } }
    {
        Depth {
            reach: self.reach.of_fields(),
            level: self.level + 1,
        }
    }

    /// The depth of the items of an array.
    pub(crate) fn of_items(self) -> Depth
        requires level { deepest self false ≤ 1000 }
        ensures { result ≡ record { reach = self.reach; level = self.level + 1 } }
    {
        Depth {
            reach: self.reach,
            level: self.level + 1,
        }
    }

    /// The depth of a constant, which is shown in place of the reference to it.
    pub(crate) fn of_constant(self) -> Depth
        requires references { 1 ≤ self.reach.references }
        ensures { result ≡ record { reach = record { references = self.reach.references - 1; composites = 33 }; level = self.level } }
    {
        Depth {
            reach: self.reach.of_constant(),
            level: self.level,
        }
    }
}

/// A chunk, and the depth of a value in it that is shown.
#[derive(Clone, Copy)]
pub(crate) struct View<'s, 'a> {
    pub(crate) chunk: &'s Chunk<'a>,
    pub(crate) depth: Depth,
}
