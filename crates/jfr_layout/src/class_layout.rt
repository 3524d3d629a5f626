//! The layout of a class, computed once for walks over many values.

use crate::{FieldLayout, FusedFields};

/// What walks over many values need to know of the fields of a class.
#[derive(Drop)]
pub struct ClassLayout {
    /// How the values of the fields are spelled, in order.
    pub layouts: Vec<FieldLayout>,
    /// The fields in groups, each of which a walk passes at once.
    pub fused_fields: Vec<FusedFields>,
    /// Whether the class is composite and has the super type of events.
    pub is_event: bool,
}
