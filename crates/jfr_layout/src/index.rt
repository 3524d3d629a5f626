//! The index of classes by id, which refuses repeated ids and field names.
ghost use Rattle.std.specs.Prelude.{◌≡◌, ℕ, ◌+◌, ◌*◌, ◌≤◌, length, None, Some, IfOk, is_some, if◌then◌else◌, ◌==◌};
ghost use Rattle.std.specs.BTreeMap as tree;
ghost use Rattle.std.specs.Ordering.{nat_cmp};
ghost use Rattle.jfr_layout.specs.Classes.{ReportsFirst, repeats, name_repeats};
ghost use Rattle.jfr_layout.specs.Names.{AreAllNumbered, AreNumbered};
ghost use Rattle.jfr_layout.specs.Resolved.{IsIndex, index_in};

use crate::{ClassFault, ClassList, Fields};
use jfr_base::{NoMemory, Reason};
use std::alloc::Global;
use std::collections::{BTreeMap, BTreeSet};

/// The direct table may have this many ids, whatever the number of classes.
const FEW_IDS: u64 = 16384;

/// And this many more for each class.
const IDS_A_CLASS: u64 = 4;

/// The indices of classes by id: those of small ids in a direct table, the others in a map.
#[derive(Drop)]
pub struct Index {
    near: Vec<Option<usize>>,
    far: BTreeMap<u64, usize>,
}

impl Index {
    /// An index without classes, with a direct table for `ids` ids.
    fn new(alloc: Global, ids: usize) -> Result<Index, NoMemory>
        ensures { IfOk result (λ index. (id : ℕ) → index_in index id ≡ None) }
    {
        let near = vec![in alloc; None; ids]?;
        Ok(Index {
            near,
            far: BTreeMap::new(alloc),
        })
    }

    /// Sets the index of the class with this id, and returns whether the id had one before.
    fn insert(&mut self, id: u64, index: usize) -> Result<bool, NoMemory>
        ensures used { IfOk result (λ used. used ≡ is_some (index_in self.old id)) }
        ensures indices { IfOk result (λ _. (other : ℕ) → index_in self.new other ≡ (if id == other then Some index else index_in self.old other)) }
    {
        if id < self.near.len() as u64 {
            let used = self.near[id as usize].is_some();
            self.near[id as usize] = Some(index);
            return Ok(used);
        }
        let old = self.far.insert(id, index)?;
        Ok(old.is_some())
    }

    /// The length of the direct table, which has all ids below it.
    pub fn near_len(&self) -> usize
        ensures { result ≡ length self.now.near.items }
    {
        self.near.len()
    }

    /// The index of the class with this id, if there is one.
    #[inline]
    pub fn index_of(&self, id: u64) -> Option<usize>
        ensures { result ≡ index_in self.now id }
    {
        if id < self.near.len() as u64 {
            return self.near[id as usize];
        }
        self.far_index_of(id)
    }

    /// As `index_of`, for an id past the end of the direct table.
    #[cold]
    fn far_index_of(&self, id: u64) -> Option<usize>
        ensures { result ≡ tree.get nat_cmp self.now.far id }
    {
        self.far.get(&id).copied()
    }
}

/// The length of the direct table: up to the greatest id, as far as the bound allows.
fn near_ids(list: &ClassList) -> usize
    ensures small { result ≤ IDS_A_CLASS * length list.now + FEW_IDS }
{
    let mut ids = 0;
    for class in list.as_slice() {
        ids = class.id.saturating_add(1).max(ids);
    }
    let most = (list.len() as u64)
        .saturating_mul(IDS_A_CLASS)
        .saturating_add(FEW_IDS);
    ids.min(most) as usize
}

/// Refuses a field with the name of an earlier one, by the numbers of the names.
fn check_names(
    alloc: Global,
    class: usize,
    fields: &Fields,
    numbers: &[u64],
) -> Result<(), ClassFault>
    requires { AreNumbered fields.now numbers.now }
    ensures { ReportsFirst (name_repeats class fields.now) result }
{
    let mut seen = BTreeSet::new(alloc);
    for field in 0..fields.len() {
        let is_new = seen.insert(numbers[field])?;
        if !is_new {
            return Err(ClassFault::Flawed {
                class,
                field: Some(field),
                reason: Reason::FieldTwice,
            });
        }
    }
    Ok(())
}

/// The index of these classes. A class with the id of an earlier one is refused, and a field with the name of
/// an earlier one of its class. `numbers` has those of the names of each class's fields.
pub fn index_classes(
    alloc: Global,
    list: &ClassList,
    numbers: &[Vec<u64>],
) -> Result<Index, ClassFault>
    requires numbered { AreAllNumbered list.now numbers.now }
    ensures exact { IfOk result (IsIndex list.now) }
    ensures judged { ReportsFirst (repeats list.now) result }
{
    let mut index = Index::new(alloc, near_ids(list))?;
    for (at, class) in list.as_slice().iter().enumerate() {
        if index.insert(class.id, at)? {
            return Err(ClassFault::Flawed {
                class: at,
                field: None,
                reason: Reason::ClassTwice,
            });
        }
        check_names(alloc, at, &class.fields, &numbers[at])?;
    }
    Ok(index)
}
