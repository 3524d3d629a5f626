//! The texts of references that aren't followed.
ghost use Rattle.std.specs.Prelude.{◌≡◌, ◌++◌, OnOk};
ghost use Rattle.std.specs.Str.{chars};
ghost use Rattle.jfr_show.specs.Names.{class_name};
ghost use Rattle.jfr_show.specs.Shown.{missing_shown, reference_shown};

use crate::TextBuilder;
use jfr_base::NoMemory;
use jfr_chunk::Chunk;

/// The name of the class with this id; empty if there is no such class.
pub(crate) fn class_name<'c>(chunk: &'c Chunk<'_>, class: u64) -> &'c str
    ensures { chars result.now ≡ class_name chunk.now.classes class }
{
    match chunk.classes().find(class) {
        Some(info) => info.name.as_str(),
        None => "",
    }
}

/// Adds the name of a class and a key.
pub(crate) fn show_name(
    chunk: &Chunk<'_>,
    class: u64,
    key: u64,
    out: &mut TextBuilder,
) -> Result<(), NoMemory>
    ensures ok { OnOk result (out.new ≡ out.old ++ reference_shown chunk.now.classes (class, key)) }
{
    out.push_str(class_name(chunk, class))?;
    out.push_ascii("#")?;
    out.push_number(key)
}

/// Adds the name of a class and a key, and that no entry is in force for them.
pub(crate) fn show_missing(
    chunk: &Chunk<'_>,
    class: u64,
    key: u64,
    out: &mut TextBuilder,
) -> Result<(), NoMemory>
    ensures ok { OnOk result (out.new ≡ out.old ++ missing_shown chunk.now.classes (class, key)) }
{
    show_name(chunk, class, key, out)?;
    out.push_ascii(" (missing)")
}
