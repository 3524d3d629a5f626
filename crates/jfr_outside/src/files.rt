//! Files in memory.
ghost use Rattle.std.specs.Prelude.{◌≡◌, ◌++◌, ℕ, List, [], map, encode_utf8_all, IfOk, IfSome, OnOk, OnErr, unwrap_or};
ghost use Rattle.std.specs.FinMap as fin;
ghost use Rattle.std.specs.Str.{IsUtf8};
ghost use Rattle.jfr_outside.specs.Held.{files_of, IsHeld};
ghost use Rattle.jfr_outside.specs.World.{bytes_in, slice_of, rest_in, names_in};

use jfr_base::{NoMemory, Words};
use std::alloc::{AllocError, Global};
use std::collections::BTreeMap;

/// The bytes of each file, by its name.
pub type FileMap = BTreeMap<String, Vec<u8>>;

/// The bytes of a file, if it exists.
pub fn file_in<'a>(files: &'a FileMap, name: &str) -> Option<&'a [u8]>
    ensures { slice_of result ≡ fin.get (files_of files.now) name.now }
{
    match files.get(name) {
        Some(bytes) => Some(bytes.as_slice()),
        None => None,
    }
}

/// Adds bytes at the end of a file that exists. If memory runs out, nothing changes.
pub fn grow_file(files: &mut FileMap, name: &str, bytes: &[u8]) -> Result<(), AllocError>
    requires { IsHeld (files_of files.old) name.now }
    ensures ok { OnOk result (files_of files.new ≡ fin.insert (files_of files.old) name.now (unwrap_or (fin.get (files_of files.old) name.now) [] ++ bytes.now)) }
    ensures unchanged { OnErr result (files_of files.new ≡ files_of files.old) }
    ensures holds { (other : List ℕ) → IsHeld (files_of files.old) other → IsHeld (files_of files.new) other }
{
    if let Some(file) = files.get_mut(name) {
        file.extend_from_slice(bytes)?;
    }
    Ok(())
}

/// Sets a file to these bytes, whether it existed before or not. If memory runs out, nothing changes.
pub fn set_file(
    alloc: Global,
    files: &mut FileMap,
    name: &str,
    bytes: &[u8],
) -> Result<(), AllocError>
    ensures ok { OnOk result (files_of files.new ≡ fin.insert (files_of files.old) name.now bytes.now) }
    ensures unchanged { OnErr result (files_of files.new ≡ files_of files.old) }
    ensures there { OnOk result (IsHeld (files_of files.new) name.now) }
    ensures holds { (other : List ℕ) → IsHeld (files_of files.old) other → IsHeld (files_of files.new) other }
{
    let key = String::from_str(alloc, name)?;
    let value = Vec::from_slice(alloc, bytes)?;
    files.insert(key, value)?;
    Ok(())
}

/// The bytes of the pieces, one after another.
pub fn join(alloc: Global, pieces: &[&[u8]]) -> Result<Vec<u8>, AllocError>
    ensures { IfOk result (λ joined. joined.items ≡ bytes_in pieces.now) }
{
    let mut joined = Vec::new(alloc);
    for piece in pieces {
        joined.extend_from_slice(piece)?;
    }
    Ok(joined)
}

/// The names of the files directly in a folder, without the folder, in byte order.
pub fn names_in(alloc: Global, files: &FileMap, folder: &str) -> Result<Words, NoMemory>
    ensures { IfOk result (λ names. map encode_utf8_all names ≡ names_in folder.now (files_of files.now)) }
{
    let mut names = Words::new(alloc);
    for name in files.keys() {
        if let Some(rest) = rest_in(folder, name.as_str()) {
            names.push(rest)?;
        }
    }
    Ok(names)
}

/// The part of a name after the folder, if the file is directly in the folder.
fn rest_in<'a>(folder: &str, name: &'a str) -> Option<&'a str>
    ensures exact { slice_of result ≡ rest_in folder.now name.now }
    ensures text { IfSome result (λ rest. IsUtf8 rest.now) }
{
    let rest = name.strip_prefix(folder)?.strip_prefix('/')?;
    if rest.contains('/') {
        return None;
    }
    Some(rest)
}
