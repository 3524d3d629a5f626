//! The classes of the lines.
ghost use Rattle.std.specs.Prelude.{◌≡◌, ◌<◌, drop, length, IfErr, IfOk, OnOk};
ghost use Rattle.jfr_layout.specs.Classes.{Sound};
ghost use Rattle.jfr_build.specs.ClassLines.{IsClassFault, classes_in, fields_in, line_at, number_at, number_from, super_of};

use crate::line::BuildLine;
use crate::lines::{NumberedLine, is_class, is_region};
use crate::{BuildFault, BuildReason};
use jfr_base::{NoMemory, Text, Words};
use jfr_layout::{ClassFault, ClassInfo, ClassList, Classes, FieldInfo, Fields};
use std::alloc::Global;

/// The super type of an event class.
const EVENT: &str = "jdk.jfr.Event";

/// The classes of the lines. If they aren't sound, the refusal names the line of the first flaw's class or field.
pub fn make_classes(alloc: Global, lines: &[NumberedLine<'_>]) -> Result<Classes, BuildFault>
    ensures ok { OnOk result (Sound (classes_in lines.now)) }
    ensures exact { IfOk result (λ classes. classes ≡ classes_in lines.now) }
    ensures refused { IfErr result (IsClassFault lines.now) }
{
    match Classes::make(alloc, class_list(alloc, lines)?) {
        Ok(classes) => Ok(classes),
        Err(ClassFault::Memory) => Err(BuildFault::Memory),
        Err(
            ClassFault::Flawed {
                class,
                field,
                reason,
            },
        ) => Err(BuildFault::Refused {
            line: line_at(lines, class, field),
            reason: BuildReason::Class(reason),
        }),
    }
}

/// The classes of the lines, each with the fields of the lines that follow it.
fn class_list(alloc: Global, lines: &[NumberedLine<'_>]) -> Result<ClassList, NoMemory>
    ensures ok { IfOk result (λ list. list ≡ classes_in lines.now) }
{
    let mut list = ClassList::new(alloc);
    for (at, line) in lines.iter().enumerate() {
        if let BuildLine::Class { id, name, event } = &line.line {
            list.push(ClassInfo {
                id: *id,
                name: name.to_text(alloc)?,
                super_name: super_of(alloc, *event)?,
                fields: fields_from(alloc, lines, at + 1)?,
                categories: Words::new(alloc),
            })?;
        }
    }
    Ok(list)
}

/// The super type of a class, if it has one.
fn super_of(alloc: Global, event: bool) -> Result<Option<Text>, NoMemory>
    ensures ok { IfOk result (λ name. name ≡ super_of event) }
{
    if !event {
        return Ok(None);
    }
    Ok(Some(Text::make(alloc, EVENT)?))
}

/// The fields of the lines from this index on, up to the first line that is neither a field nor the region.
fn fields_from(alloc: Global, lines: &[NumberedLine<'_>], from: usize) -> Result<Fields, NoMemory>
    ensures ok { IfOk result (λ fields. fields ≡ fields_in (drop from lines.now)) }
{
    let mut fields = Fields::new(alloc);
    for at in from..lines.len() {
        match &lines[at].line {
            BuildLine::Field { name, shape } => fields.push(FieldInfo {
                name: name.to_text(alloc)?,
                shape: *shape,
            })?,
            BuildLine::Region(_) => {}
            _ => return Ok(fields),
        }
    }
    Ok(fields)
}

/// The line number of the class with this index or, with `field`, of that field of the class; 0 if there is no
/// such line.
fn line_at(lines: &[NumberedLine<'_>], class: usize, field: Option<usize>) -> u64
    ensures { result ≡ line_at lines.now class field }
{
    let mut before = class;
    for (at, line) in lines.iter().enumerate() {
        if is_class(&line.line) {
            if before == 0 {
                return number_after(lines, at, field);
            }
            before -= 1;
        }
    }
    0
}

/// The number of the line with this index or, with `field`, of that field's line after it; 0 if there is no such
/// line.
fn number_after(lines: &[NumberedLine<'_>], at: usize, field: Option<usize>) -> u64
    requires { at < length lines.now }
    ensures { result ≡ number_from (drop at lines.now) field }
{
    match field {
        None => lines[at].number,
        Some(number) => {
            let (_, rest) = lines.split_at(at + 1);
            number_at(rest, number)
        }
    }
}

/// The number of the line with this index, not counting the region; 0 if there is no such line.
fn number_at(lines: &[NumberedLine<'_>], index: usize) -> u64
    ensures { result ≡ number_at lines.now index }
{
    let mut before = index;
    for line in lines {
        if is_region(&line.line) {
            continue;
        }
        if before == 0 {
            return line.number;
        }
        before -= 1;
    }
    0
}
