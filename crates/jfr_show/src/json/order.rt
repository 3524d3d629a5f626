//! The order in which the fields of a class are written: sorted by name, as `serde_json` sorts them.
ghost use Rattle.std.specs.Prelude.{◌≡◌, [], ◌∷◌, ◌++◌, IfOk, IfSome, string_bytes};
ghost use Rattle.serde_json.specs.Data.{no_members, string};
ghost use Rattle.serde_json.specs.View.{members_view};
ghost use Rattle.serde_json.specs.Written.{comma_if, compact_text};
ghost use Rattle.jfr_show.specs.Json.{members_with};
ghost use Rattle.jfr_show.specs.Orders.{AreOrders, IsOrder, leads_of, numbers};

use super::string::push_string;
use jfr_base::NoMemory;
use jfr_layout::{Classes, Fields};
use serde_json::{Map, Value, put};
use std::alloc::Global;

/// The length of the longest field name in an order that is kept for the whole chunk.
const SHORT: usize = 64;

/// A member of an object: the text before its value, and the number of its field.
#[derive(Drop)]
pub(crate) struct Lead {
    pub(crate) text: String,
    pub(crate) field: usize,
}

/// The members of the objects of a class, in the order of their keys.
#[derive(Drop)]
pub(crate) struct MemberOrder {
    pub(crate) leads: Vec<Lead>,
}

/// The order for each class, at the index of the class; `None` if a field has a long name. Any number of
/// classes can share one such name without a copy of it, but each order would hold a copy. So their orders
/// are made while their objects are written, which bounds the memory.
pub(crate) fn orders_of(
    alloc: Global,
    classes: &Classes,
) -> Result<Vec<Option<MemberOrder>>, NoMemory>
    ensures ok { IfOk result (λ orders. AreOrders classes.now orders.items) }
{
    let mut orders = Vec::with_capacity(alloc, classes.len())?;
    for class in classes.as_slice() {
        orders.push(short_order(alloc, &class.fields)?)?;
    }
    Ok(orders)
}

/// The order of the fields of a class; `None` if one has a long name.
fn short_order(alloc: Global, fields: &Fields) -> Result<Option<MemberOrder>, NoMemory>
    ensures ok { IfOk result (λ order. IfSome order (λ o. IsOrder fields.now (leads_of o))) }
{
    let is_long = fields
        .as_slice()
        .iter()
        .any(|field| field.name.as_str().len() > SHORT);
    if is_long {
        return Ok(None);
    }
    Ok(Some(order_of(alloc, fields)?))
}

/// The order of the fields of a class: the one in which a map of `serde_json` has them.
pub(crate) fn order_of(alloc: Global, fields: &Fields) -> Result<MemberOrder, NoMemory>
    ensures ok { IfOk result (λ order. IsOrder fields.now (leads_of order)) }
{
    let members = numbered(alloc, fields)?;
    let mut leads = Vec::new(alloc);
    let mut later = false;
    for (name, number) in members.iter() {
        leads.push(Lead {
            text: lead_text(alloc, later, name.as_str())?,
            // The value is a number from `numbered`, so the default isn't used.
            field: number.as_u64().unwrap_or(0) as usize,
        })?;
        later = true;
    }
    Ok(MemberOrder { leads })
}

/// A map from the name of each field to its number.
fn numbered(alloc: Global, fields: &Fields) -> Result<Map<String, Value>, NoMemory>
    ensures ok { IfOk result (λ members. members_view members.entries ≡ members_with no_members fields.now (numbers 0 fields.now)) }
{
    let mut members = Map::new(alloc);
    for (number, field) in fields.as_slice().iter().enumerate() {
        put(
            &mut members,
            alloc,
            field.name.as_str(),
            Value::from(number),
        )?;
    }
    Ok(members)
}

/// The text before the value of a member: a comma if another member comes before, the key, and a colon.
fn lead_text(alloc: Global, later: bool, key: &str) -> Result<String, NoMemory>
    ensures ok { IfOk result (λ text. string_bytes text ≡ comma_if later ++ (compact_text (string key.now) ++ 58 ∷ [])) }
{
    let mut text = String::new(alloc);
    if later {
        text.push_str(",")?;
    }
    push_string(alloc, key, &mut text)?;
    text.push_str(":")?;
    Ok(text)
}
