//! The pools of constants.
ghost use Rattle.std.specs.Prelude.{◌≡◌, ◌==◌, ◌+◌, ◌<◌, ◌^◌, ◌++◌, ℕ, [], false, true, IfOk, IsSome, OnOk, None};
ghost use Rattle.jfr_base.specs.Integer.{spell};
ghost use Rattle.jfr_build.specs.Built.{is_constant_of, pools_of, with_class};
ghost use Rattle.jfr_build.specs.LineValues.{first_bad_value, is_bad_value};
ghost use Rattle.jfr_build.specs.Pooled.{Added, AreListed, Grown, count_in, entries_in, pool_bytes, pool_in, pools_bytes};

use crate::line::BuildLine;
use crate::line_values::known_value;
use crate::lines::NumberedLine;
use crate::value_bytes::ValueBytes;
use jfr_base::{NoMemory, push_var};
use jfr_layout::Classes;
use std::alloc::Global;
use std::collections::BTreeMap;

/// The entries of a class.
#[derive(Drop)]
pub struct Pool {
    pub count: u64,
    pub entries: Vec<u8>,
}

/// The pools of all classes that have constants, and these classes in the order of their first lines.
#[derive(Drop)]
pub struct ConstantPools {
    alloc: Global,
    by_class: BTreeMap<u64, Pool>,
    classes: Vec<u64>,
}

impl ConstantPools {
    /// No pools. It allocates nothing.
    fn new(alloc: Global) -> ConstantPools
        ensures none { (id : ℕ) → pool_in result id ≡ None }
        ensures classes { result.classes.items ≡ [] }
    {
        ConstantPools {
            alloc,
            by_class: BTreeMap::new(alloc),
            classes: Vec::new(alloc),
        }
    }

    /// Takes the pool of a class; an empty one if there is none yet.
    fn take(&mut self, class: u64) -> Result<Pool, NoMemory>
        requires listed { AreListed self.old }
        ensures count { IfOk result (λ pool. pool.count ≡ count_in (pool_in self.old class)) }
        ensures entries { IfOk result (λ pool. pool.entries.items ≡ entries_in (pool_in self.old class)) }
        ensures classes { OnOk result (self.new.classes.items ≡ with_class self.old.classes.items class) }
        ensures others { OnOk result ((id : ℕ) → (class == id) ≡ false → pool_in self.new id ≡ pool_in self.old id) }
    {
        if let Some(pool) = self.by_class.remove(&class) {
            return Ok(pool);
        }
        self.classes.push(class)?;
        Ok(Pool {
            count: 0,
            entries: Vec::new(self.alloc),
        })
    }

    /// Adds an entry to the pool of a class.
    fn push(&mut self, class: u64, key: u64, value: &[u8]) -> Result<(), NoMemory>
        requires listed { AreListed self.old }
        requires few { count_in (pool_in self.old class) + 1 < 2 ^ 64 }
        ensures ok { OnOk result (Grown self.old self.new class (spell key ++ value.now)) }
    {
        let mut pool = self.take(class)?;
        pool.count += 1;
        push_var(&mut pool.entries, key)?;
        pool.entries.extend_from_slice(value)?;
        self.by_class.insert(class, pool)?;
        Ok(())
    }

    /// The pools, in the order of their classes.
    fn to_bytes(&self) -> Result<Vec<u8>, NoMemory>
        requires { AreListed self.now }
        ensures ok { IfOk result (λ bytes. bytes.items ≡ pools_bytes self.now) }
    {
        let mut bytes = Vec::new(self.alloc);
        push_var(&mut bytes, self.classes.len() as u64)?;
        for class in &self.classes {
            self.push_pool(&mut bytes, *class)?;
        }
        Ok(bytes)
    }

    /// Appends the pool of a class.
    fn push_pool(&self, bytes: &mut Vec<u8>, class: u64) -> Result<(), NoMemory>
        requires { IsSome (pool_in self.now class) }
        ensures ok { OnOk result (bytes.new.items ≡ bytes.old.items ++ pool_bytes self.now class) }
    {
        let pool = &self.by_class[&class];
        push_var(bytes, class)?;
        push_var(bytes, pool.count)?;
        bytes.extend_from_slice(&pool.entries)?;
        Ok(())
    }
}

/// The number of pools, and the pools of all constants.
pub fn pools_of(
    alloc: Global,
    classes: &Classes,
    lines: &[NumberedLine<'_>],
) -> Result<Vec<u8>, NoMemory>
    requires good { first_bad_value classes.now lines.now ≡ None }
    ensures ok { IfOk result (λ bytes. bytes.items ≡ pools_of classes.now lines.now) }
{
    // Shows the prover that there are at most `usize::MAX` lines, so no pool has more entries.
    let _count = lines.len();
    let mut pools = ConstantPools::new(alloc);
    let mut value = ValueBytes::new(alloc);
    for line in lines {
        push_line(&mut pools, classes, &line.line, &mut value)?;
    }
    pools.to_bytes()
}

/// Adds the entry of the line, if it is a constant.
fn push_line(
    pools: &mut ConstantPools,
    classes: &Classes,
    line: &BuildLine<'_>,
    value: &mut ValueBytes,
) -> Result<(), NoMemory>
    requires listed { AreListed pools.old }
    requires few { (id : ℕ) → is_constant_of id line.now ≡ true → count_in (pool_in pools.old id) + 1 < 2 ^ 64 }
    requires good { is_bad_value classes.now line.now ≡ false }
    ensures ok { OnOk result (Added classes.now pools.old pools.new line.now) }
{
    let BuildLine::Constant { class, key, .. } = line else {
        return Ok(());
    };
    known_value(classes, line, value)?;
    pools.push(*class, *key, value.as_slice())
}
