//! The files of a folder that are joined.
ghost use Rattle.std.specs.Prelude.{◌≡◌, ◌++◌, ◌∷◌, [], map, string_bytes, IfOk, OnOk, if◌then◌else◌};
ghost use Rattle.std.specs.FinMap as fin;
ghost use Rattle.jfr_outside.specs.World.{Files, IsListing, in_folder as name_in_folder};
ghost use Rattle.jfr_split.specs.Names.{is_recording};
ghost use Rattle.jfr_split.specs.Joins.{files_in};

use crate::name::in_folder;
use jfr_outside::{NoMemory, Words};
use std::alloc::Global;

/// Adds the name, with its folder, if it ends in `.jfr`.
fn push_file(
    alloc: Global,
    files: &mut Vec<String>,
    folder: &str,
    name: &str,
) -> Result<(), NoMemory>
    ensures { OnOk result (map (λ f. string_bytes f) files.new.items ≡ map (λ f. string_bytes f) files.old.items
        ++ (if is_recording name.now then name_in_folder folder.now name.now ∷ [] else [])) }
{
    if !name.ends_with(".jfr") {
        return Ok(());
    }
    files.push(in_folder(alloc, folder, name)?)?;
    Ok(())
}

/// The names of the folder's files that are joined, each with the folder, in byte order.
pub fn joined_files(alloc: Global, folder: &str, names: &Words) -> Result<Vec<String>, NoMemory>
    ensures { IfOk result (λ made. (files : Files) → IsListing folder.now files names.now
        → map (λ f. string_bytes f) made.items ≡ fin.keys (files_in folder.now files)) }
{
    let mut files = Vec::new(alloc);
    for name in names.as_slice() {
        push_file(alloc, &mut files, folder, name.as_str())?;
    }
    files.sort()?;
    Ok(files)
}
