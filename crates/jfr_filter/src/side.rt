//! The options of a filter, and why a list of patterns is refused.
ghost use Rattle.std.specs.Prelude.{◌≡◌};
ghost use Rattle.jfr_filter.specs.declared.side.FilterFault.TheVariants.{Memory};

use jfr_base::NoMemory;
use std::alloc::AllocFailed;
use thiserror::Error;

/// An option of a filter: what its patterns are matched with, and whether events that match are kept or
/// dropped.
#[derive(Clone, Copy, Debug, PartialEq, Eq, PartialOrd, Ord)]
pub enum Side {
    /// Keeps only the events whose class name or simple name matches.
    IncludeEvents,
    /// Drops the events whose class name or simple name matches.
    ExcludeEvents,
    /// Keeps only the events with a category that matches.
    IncludeCategories,
    /// Drops the events with a category that matches.
    ExcludeCategories,
    /// Keeps only the events whose thread text matches.
    IncludeThreads,
    /// Drops the events whose thread text matches.
    ExcludeThreads,
    /// Keeps the events whose class name or simple name matches, whatever the time window.
    Always,
    /// Keeps the descriptions of the event classes whose name or simple name matches, even without events.
    Describe,
}

/// Why a list of patterns was not added.
#[derive(Clone, Copy, Debug, PartialEq, Eq, Error)]
pub enum FilterFault {
    /// A part of the list is empty.
    #[error("EmptyPattern")]
    EmptyPattern,
    /// Memory ran out.
    #[error("Memory")]
    Memory,
}

impl From<NoMemory> for FilterFault {
    ghost from_gives = { λ _ fault. fault ≡ Memory };

    fn from(_: NoMemory) -> Self {
        FilterFault::Memory
    }
}

impl<T: Drop> From<AllocFailed<T>> for FilterFault {
    ghost from_gives = { λ _ fault. fault ≡ Memory };

    fn from(_: AllocFailed<T>) -> Self {
        FilterFault::Memory
    }
}
