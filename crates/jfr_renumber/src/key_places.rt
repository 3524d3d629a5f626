//! Bytes in which the keys of entries are new ones.
ghost use Rattle.std.specs.Prelude.{◌≡◌, ◌≤◌, ◌++◌, length, get_or, OnOk};
ghost use Rattle.jfr_renumber.specs.KeyPlaces.{AreIntegers, with_keys_at};

use jfr_base::{NoMemory, known_integer, push_var};
use jfr_chunk::KeyPlace;

/// The bytes of a chunk, and the new key of each of its entries.
#[derive(Clone, Copy)]
pub(crate) struct Rekeying<'a> {
    pub(crate) bytes: &'a [u8],
    pub(crate) new_keys: &'a [u64],
}

/// Appends the bytes from `from` up to `to`, in which the keys at these places are the new keys of their entries.
pub(crate) fn put_with_keys(
    out: &mut Vec<u8>,
    rekeying: Rekeying<'_>,
    places: &[KeyPlace],
    from: usize,
    to: usize,
) -> Result<(), NoMemory>
    requires integers { AreIntegers rekeying.bytes.now (length rekeying.new_keys.now) from to places.now }
    requires within { to ≤ length rekeying.bytes.now }
    ensures ok { OnOk result (out.new.items ≡ out.old.items ++ with_keys_at (λ i. get_or rekeying.entry.new_keys.now i 0) rekeying.entry.bytes.now from to places.now) }
{
    let bytes = rekeying.bytes;
    let mut copied = from;
    for place in places {
        let at = place.at as usize;
        out.extend_from_slice(&bytes[copied..at])?;
        push_var(out, rekeying.new_keys[place.entry as usize])?;
        copied = known_integer(bytes, at, bytes.len()).end;
    }
    out.extend_from_slice(&bytes[copied..to])?;
    Ok(())
}
