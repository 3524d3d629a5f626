//! Numbers for the names of fields.
ghost use Rattle.std.specs.Prelude.{IfOk};
ghost use Rattle.jfr_layout.specs.Names.{AreAllNumbered, AreNumbered};

use crate::{ClassList, Fields};
use jfr_base::NoMemory;
use std::alloc::Global;
use std::collections::BTreeMap;

/// For each field, the number of the first field with its name.
fn number_names(alloc: Global, fields: &Fields) -> Result<Vec<u64>, NoMemory>
    ensures ok { IfOk result (λ numbers. AreNumbered fields.now numbers.items) }
{
    let mut firsts = BTreeMap::new(alloc);
    let mut numbers = Vec::with_capacity(alloc, fields.len())?;
    for (number, field) in fields.as_slice().iter().enumerate() {
        let name = field.name.as_str();
        if let Some(first) = firsts.get(name) {
            numbers.push(*first)?;
            continue;
        }
        firsts.insert(name, number as u64)?;
        numbers.push(number as u64)?;
    }
    Ok(numbers)
}

/// For each class, numbers for the names of its fields: equal exactly for equal names.
pub(crate) fn number_fields(alloc: Global, list: &ClassList) -> Result<Vec<Vec<u64>>, NoMemory>
    ensures ok { IfOk result (λ numbers. AreAllNumbered list.now numbers.items) }
{
    let mut numbers = Vec::with_capacity(alloc, list.len())?;
    for class in list.as_slice() {
        let names = number_names(alloc, &class.fields)?;
        numbers.push(names)?;
    }
    Ok(numbers)
}
