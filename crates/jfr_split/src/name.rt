//! The names of parts.
ghost use Rattle.std.specs.Prelude.{◌≡◌, ◌<◌, ◌≤◌, ◌+◌, ◌^◌, ◌∷◌, ◌++◌, [], string_bytes, IfOk, OnOk};
ghost use Rattle.std.specs.Str.{chars};
ghost use Rattle.jfr_outside.specs.World.{slice_of, in_folder as name_in_folder};
ghost use Rattle.jfr_split.specs.Names.{base as base_of_name, without_suffix as name_without_suffix, stem as stem_of_file, digits, suffix, part_name as name_of_part};

use jfr_outside::{NoMemory, Text};
use std::alloc::Global;

/// The part of a name after its last slash.
fn base(name: &str) -> &str
    ensures { result.now ≡ base_of_name name.now }
{
    match name.rsplit_once('/') {
        Some((_, base)) => base,
        None => name,
    }
}

/// The name without a final `.jfr`, if something comes before that.
fn without_suffix(name: &str) -> &str
    ensures { result.now ≡ name_without_suffix name.now }
{
    match name.strip_suffix(".jfr") {
        Some(stem) if !stem.is_empty() => stem,
        _ => name,
    }
}

/// The stem of a file's parts.
#[tactic(auto, unfolding(crate::specs::Names::stem))]
fn stem(file: &str) -> &str
    ensures { result.now ≡ stem_of_file file.now }
{
    without_suffix(base(file))
}

/// A digit as a text.
fn digit(value: u64) -> &'static str
    requires { value < 10 }
    ensures { result.now ≡ (48 + value) ∷ [] }
{
    match value {
        0 => "0",
        1 => "1",
        2 => "2",
        3 => "3",
        4 => "4",
        5 => "5",
        6 => "6",
        7 => "7",
        8 => "8",
        _ => "9",
    }
}

/// Adds the number with six digits.
fn push_digits(text: &mut String, number: u64) -> Result<(), NoMemory>
    requires { number < 10 ^ 6 }
    ensures { OnOk result (string_bytes text.new ≡ string_bytes text.old ++ digits 6 number) }
{
    let tens = number / 10;
    let hundreds = tens / 10;
    let thousands = hundreds / 10;
    let higher = thousands / 10;
    text.push_str(digit(higher / 10 % 10))?;
    text.push_str(digit(higher % 10))?;
    text.push_str(digit(thousands % 10))?;
    text.push_str(digit(hundreds % 10))?;
    text.push_str(digit(tens % 10))?;
    text.push_str(digit(number % 10))?;
    Ok(())
}

/// The name of a file in a folder.
pub fn in_folder(alloc: Global, folder: &str, name: &str) -> Result<String, NoMemory>
    ensures { IfOk result (λ made. string_bytes made ≡ name_in_folder folder.now name.now) }
{
    let mut made = String::from_str(alloc, folder)?;
    made.push_str("/")?;
    made.push_str(name)?;
    Ok(made)
}

/// The name of a part without its folder.
fn numbered(alloc: Global, file: &str, number: u64) -> Result<String, NoMemory>
    requires { number < 10 ^ 6 }
    ensures { IfOk result (λ made. string_bytes made ≡ stem_of_file file.now ++ 95 ∷ (digits 6 number ++ suffix)) }
{
    let mut made = String::from_str(alloc, stem(file))?;
    made.push_str("_")?;
    push_digits(&mut made, number)?;
    made.push_str(".jfr")?;
    Ok(made)
}

/// The name of a part as a string.
#[tactic(auto, unfolding(crate::specs::Names::part_name))]
pub fn part_string(
    alloc: Global,
    folder: Option<&str>,
    file: &str,
    number: u64,
) -> Result<String, NoMemory>
    requires { number < 10 ^ 6 }
    ensures { IfOk result (λ made. string_bytes made ≡ name_of_part (slice_of folder.entry) file.now number) }
{
    let name = numbered(alloc, file, number)?;
    match folder {
        Some(folder) => in_folder(alloc, folder, name.as_str()),
        None => Ok(name),
    }
}

/// The name of a part: the folder and a slash if a folder is given, the stem of the file's name, `_`, the
/// number with six digits, and `.jfr`. Parts are numbered from 1.
pub fn part_name(
    alloc: Global,
    folder: Option<&str>,
    file: &str,
    number: u64,
) -> Result<Text, NoMemory>
    requires least { 1 ≤ number }
    requires most { number ≤ 999999 }
    ensures { IfOk result (λ name. name ≡ chars (name_of_part (slice_of folder.entry) file.now number)) }
{
    let name = part_string(alloc, folder, file, number)?;
    Text::from_string(name)
}
