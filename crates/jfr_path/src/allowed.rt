//! The classes that a filter's options on events and categories allow.
ghost use Rattle.std.specs.Prelude.{◌≡◌, ◌||◌, List, ℕ, IfOk, is_some, map};
ghost use Rattle.jfr_filter.specs.Filters.{Given};
ghost use Rattle.jfr_path.specs.Strings.{is_allowed, is_named_allowed, over_categories, over_events};

use crate::strings::StringVerdicts;
use jfr_base::NoMemory;
use jfr_chunk::Chunk;
use jfr_filter::{Filter, Side};
use jfr_layout::Classes;
use jfr_meta::ClassNames;
use std::alloc::Global;

/// Whether the options on events and on categories allow each class, in the order of the classes.
pub(crate) fn allowed_classes(
    alloc: Global,
    chunk: &Chunk<'_>,
    filter: &Filter,
) -> Result<Vec<bool>, NoMemory>
    ensures ok { IfOk result (λ allowed. allowed.items ≡ map (is_allowed filter.now) chunk.now.classes) }
{
    if asks_for_classes(filter) {
        allowed_by_strings(alloc, chunk, filter)
    } else {
        allowed_directly(alloc, chunk.classes(), filter)
    }
}

/// Whether an option on events or on categories is given.
fn asks_for_classes(filter: &Filter) -> bool
    ensures { result ≡ (is_some filter.now.include_events || is_some filter.now.exclude_events || (is_some filter.now.include_categories || is_some filter.now.exclude_categories)) }
{
    let events = filter.has(Side::IncludeEvents) || filter.has(Side::ExcludeEvents);
    let categories = filter.has(Side::IncludeCategories) || filter.has(Side::ExcludeCategories);
    events || categories
}

/// Whether the options allow each class, found class by class. This is cheap if none of them is given.
fn allowed_directly(
    alloc: Global,
    classes: &Classes,
    filter: &Filter,
) -> Result<Vec<bool>, NoMemory>
    ensures ok { IfOk result (λ allowed. allowed.items ≡ map (is_allowed filter.now) classes.now) }
{
    let mut allowed = Vec::new(alloc);
    for class in classes.as_slice() {
        allowed.push(filter.allows_class(class.name.as_str(), &class.categories))?;
    }
    Ok(allowed)
}

/// Whether the options allow each class, found with one query of the filter for each string that names a
/// class.
fn allowed_by_strings(
    alloc: Global,
    chunk: &Chunk<'_>,
    filter: &Filter,
) -> Result<Vec<bool>, NoMemory>
    ensures ok { IfOk result (λ allowed. allowed.items ≡ map (is_allowed filter.now) chunk.now.classes) }
{
    let classes = chunk.class_names(alloc)?;
    let strings = chunk.strings();
    let mut names = StringVerdicts::new(
        alloc,
        filter,
        Side::IncludeEvents,
        Side::ExcludeEvents,
        strings,
    );
    let mut categories = StringVerdicts::new(
        alloc,
        filter,
        Side::IncludeCategories,
        Side::ExcludeCategories,
        strings,
    );
    let mut allowed = Vec::new(alloc);
    for class in &classes {
        let allow = is_allowed(&mut names, &mut categories, class)?;
        allowed.push(allow)?;
    }
    Ok(allowed)
}

/// Whether the options on events allow the name of a class, and those on categories its categories.
fn is_allowed(
    names: &mut StringVerdicts<'_>,
    categories: &mut StringVerdicts<'_>,
    class: &ClassNames,
) -> Result<bool, NoMemory>
    ensures ok { (g : Given) (texts : List (List ℕ)) → names.old ≡ over_events g texts → categories.old ≡ over_categories g texts
        → IfOk result (λ allowed. allowed ≡ is_named_allowed g texts class.now) }
    ensures same { (names.new ≡ names.old) × (categories.new ≡ categories.old) }
{
    if !names.allow(&[class.name])? {
        return Ok(false);
    }
    let allowed = categories.allow(&class.categories)?;
    Ok(allowed)
}
