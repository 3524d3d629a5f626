//! Caches of the texts of entries, for one chunk.
//!
//! Many values refer to the same few entries, and their text depends only on the entry and on their role. So a
//! text is made once for each entry in each role. Otherwise each reference would cost a walk over the fields of
//! its entry, and a few entries with many fields could make this take hours.
ghost use Rattle.std.specs.Prelude.{◌≡◌, ◌++◌, ◌-◌, ◌<◌, [], None, OnErr, OnOk, Some, length, option_and_then, replicate, slice_get, slice_set, string_bytes};
ghost use Rattle.std.specs.Option.{option_copied};
ghost use Rattle.jfr_chunk.specs.Parts.{Parts};
ghost use Rattle.jfr_stacks.specs.Cached.{sized};
ghost use Rattle.jfr_stacks.specs.Roles.{AreRoleTexts, IsEntryText, of_role};

use crate::role::Role;
use jfr_base::NoMemory;
use std::alloc::Global;
use std::marker::Model;

/// The texts of entries in one role. Contracts see a list that has, for an entry, its text if the cache has it.
#[derive(Drop)]
pub(crate) struct EntryTexts {
    // Empty without texts; then for each entry the index of its text, if it has one.
    indices: Vec<Option<usize>>,
    texts: Vec<String>,
}

impl Model for EntryTexts {
    ghost use Rattle.std.specs.Prelude.{ℕ, List, Option};
    ghost use Rattle.jfr_stacks.specs.Cached.{AreIndices, texts_at};

    ghost Value = { List (Option (List ℕ)) };

    ghost view = { λ m. texts_at m.texts.items m.indices.items };

    ghost invariant = { λ m. AreIndices m.texts.items m.indices.items };
}

impl EntryTexts {
    /// A cache without texts. It allocates nothing.
    fn new(alloc: Global) -> EntryTexts
        ensures { result ≡ [] }
    {
        EntryTexts {
            indices: Vec::new(alloc),
            texts: Vec::new(alloc),
        }
    }

    /// The text for the entry with this number, if the cache has it.
    fn get(&self, number: usize) -> Option<&str>
        ensures { option_copied result ≡ option_and_then (λ text. text) (slice_get self.now number) }
    {
        let index = (*self.indices.get(number)?)?;
        Some(self.texts.get(index)?.as_str())
    }

    /// Keeps the text for the entry with this number, of this many entries.
    fn keep(&mut self, entries: usize, number: usize, text: String) -> Result<(), NoMemory>
        requires { number < entries }
        ensures ok { OnOk result (self.new ≡ slice_set (sized entries self.old) number (Some (string_bytes text))) }
        ensures unchanged { OnErr result (self.new ≡ self.old) }
    {
        let index = self.texts.len();
        self.texts.push(text)?;
        grow(&mut self.indices, entries)?;
        self.indices[number] = Some(index);
        Ok(())
    }
}

/// Fills the list up to this length.
fn grow(indices: &mut Vec<Option<usize>>, entries: usize) -> Result<(), NoMemory>
    ensures ok { OnOk result (indices.new.items ≡ indices.old.items ++ replicate (entries - length indices.old.items) None) }
    ensures unchanged { OnErr result (indices.new.items ≡ indices.old.items) }
{
    if indices.len() < entries {
        indices.resize(entries, None)?;
    }
    Ok(())
}

/// The texts of entries in each role.
#[derive(Drop)]
pub(crate) struct RoleTexts {
    pub(crate) frames: EntryTexts,
    pub(crate) methods: EntryTexts,
    pub(crate) classes: EntryTexts,
    pub(crate) names: EntryTexts,
}

impl RoleTexts {
    /// A cache without texts. It allocates nothing.
    pub(crate) fn new(alloc: Global) -> RoleTexts
        ensures { (p : Parts) → AreRoleTexts p result }
    {
        RoleTexts {
            frames: EntryTexts::new(alloc),
            methods: EntryTexts::new(alloc),
            classes: EntryTexts::new(alloc),
            names: EntryTexts::new(alloc),
        }
    }

    /// The text of the entry with this number in this role, if the cache has it.
    pub(crate) fn get(&self, role: Role, number: usize) -> Option<&str>
        ensures { option_copied result ≡ option_and_then (λ text. text) (slice_get (of_role self.now role) number) }
    {
        match role {
            Role::Frame => self.frames.get(number),
            Role::Method => self.methods.get(number),
            Role::Class => self.classes.get(number),
            Role::Name => self.names.get(number),
        }
    }

    /// Keeps the text of the entry with this number in this role, of this many entries.
    pub(crate) fn keep(
        &mut self,
        role: Role,
        entries: usize,
        number: usize,
        text: String,
    ) -> Result<(), NoMemory>
        requires { number < entries }
        ensures kept { OnOk result (slice_get (of_role self.new role) number ≡ Some (Some (string_bytes text))) }
        ensures right { OnOk result ((p : Parts) → IsEntryText p role number (string_bytes text) → AreRoleTexts p self.old → AreRoleTexts p self.new) }
    {
        match role {
            Role::Frame => self.frames.keep(entries, number, text),
            Role::Method => self.methods.keep(entries, number, text),
            Role::Class => self.classes.keep(entries, number, text),
            Role::Name => self.names.keep(entries, number, text),
        }
    }
}
