//! The holders of masked strings.
ghost use Rattle.std.specs.Prelude.{◌≡◌};
ghost use Rattle.jfr_mask.specs.Masked.{is_held_masked};

use crate::MaskedFields;
use jfr_layout::Classes;
use jfr_value::Holder;

/// Whether a string with this holder is masked. One without a holder is the value of a constant.
pub(crate) fn is_held_masked(
    masked: &MaskedFields,
    classes: &Classes,
    holder: Option<Holder>,
) -> bool
    ensures { result ≡ is_held_masked masked.now classes.now holder }
{
    let Some(holder) = holder else {
        return masked.has_constants();
    };
    match classes.index_of(holder.class) {
        Some(index) => masked.has(index, holder.field),
        None => false,
    }
}
