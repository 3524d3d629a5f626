//! What a line means.
ghost use Rattle.std.specs.Prelude.{◌≡◌, IfOk};
ghost use Rattle.jfr_build.specs.Lines.{class_line, constant_line, field_line, line_by, line_of, marks_of, name_of, record_line, region_line};

use crate::pieces::RestOfLine;
use crate::region::{Number, Region};
use jfr_base::{NoMemory, Text};
use jfr_layout::Shape;
use jfr_meta::id_of;
use std::alloc::Global;
use std::marker::Model;

/// The name of a class or a field, or a locale. Contracts see its characters.
#[derive(Drop)]
pub struct Name<'a> {
    text: &'a str,
}

impl<'a> Model for Name<'a> {
    ghost use Rattle.std.specs.Prelude.{ℕ, List};
    ghost use Rattle.std.specs.Str.{chars};

    ghost Value = { List ℕ };

    ghost view = { λ name. chars name.text.now };
}

impl<'a> Name<'a> {
    /// The word as a name; `None` exactly if it is empty.
    pub fn of(word: &'a str) -> Option<Name<'a>>
        ensures { result ≡ name_of word.now }
    {
        if word.is_empty() {
            None
        } else {
            Some(Name { text: word })
        }
    }

    /// A copy of the name.
    pub fn to_text(&self, alloc: Global) -> Result<Text, NoMemory>
        ensures { IfOk result (λ text. text ≡ self.now) }
    {
        Text::make(alloc, self.text)
    }
}

/// What a line that isn't empty means.
#[derive(Drop)]
pub enum BuildLine<'a> {
    /// A class; the super type of an event class is `jdk.jfr.Event`.
    Class {
        id: u64,
        name: Name<'a>,
        event: bool,
    },
    /// A field of the class before it.
    Field {
        name: Name<'a>,
        shape: Shape,
    },
    /// An entry in the pool of a class.
    Constant {
        class: u64,
        key: u64,
        words: RestOfLine<'a>,
    },
    /// An event.
    Record {
        class: u64,
        words: RestOfLine<'a>,
    },
    /// The region of the recording.
    Region(Region<'a>),
}

/// What a line means, with the words of its leaves still unread; `None` exactly if it isn't UTF-8 or has no
/// known form.
pub fn read_line(bytes: &[u8]) -> Option<BuildLine<'_>>
    ensures { result ≡ line_of bytes.now }
{
    match str::from_utf8(bytes) {
        Ok(line) => {
            let mut words = RestOfLine::of(line);
            let first = words.next()?;
            line_by(first, words)
        }
        Err(_) => None,
    }
}

/// The line with this first word.
fn line_by<'a>(first: &str, words: RestOfLine<'a>) -> Option<BuildLine<'a>>
    ensures { result ≡ line_by first.now words.entry }
{
    if first == "class" {
        return class_line(words, false);
    }
    if first == "event" {
        return class_line(words, true);
    }
    if first == "field" {
        return field_line(words);
    }
    if first == "constant" {
        return constant_line(words);
    }
    if first == "record" {
        return record_line(words);
    }
    if first == "region" {
        return region_line(words);
    }
    None
}

/// A class.
fn class_line(mut words: RestOfLine<'_>, event: bool) -> Option<BuildLine<'_>>
    ensures { result ≡ class_line event words.entry }
{
    let id = id_of(words.next()?)?;
    let name = Name::of(words.next()?)?;
    words.end()?;
    Some(BuildLine::Class { id, name, event })
}

/// A field.
fn field_line(mut words: RestOfLine<'_>) -> Option<BuildLine<'_>>
    ensures { result ≡ field_line words.entry }
{
    let name = Name::of(words.next()?)?;
    let class = id_of(words.next()?)?;
    let (constant, array) = marks_of(words.next()?)?;
    words.end()?;
    let shape = Shape {
        class,
        constant,
        array,
    };
    Some(BuildLine::Field { name, shape })
}

/// The constant mark and the array mark of a field.
fn marks_of(word: &str) -> Option<(bool, bool)>
    ensures { result ≡ marks_of word.now }
{
    if word == "-" {
        return Some((false, false));
    }
    if word == "c" {
        return Some((true, false));
    }
    if word == "a" {
        return Some((false, true));
    }
    if word == "ca" {
        return Some((true, true));
    }
    None
}

/// A constant.
fn constant_line(mut words: RestOfLine<'_>) -> Option<BuildLine<'_>>
    ensures { result ≡ constant_line words.entry }
{
    let class = id_of(words.next()?)?;
    let key = id_of(words.next()?)?;
    Some(BuildLine::Constant { class, key, words })
}

/// An event.
fn record_line(mut words: RestOfLine<'_>) -> Option<BuildLine<'_>>
    ensures { result ≡ record_line words.entry }
{
    let class = id_of(words.next()?)?;
    Some(BuildLine::Record { class, words })
}

/// The region.
fn region_line(mut words: RestOfLine<'_>) -> Option<BuildLine<'_>>
    ensures { result ≡ region_line words.entry }
{
    let locale = Name::of(words.next()?)?;
    let offset = Number::of(words.next()?)?;
    words.end()?;
    Some(BuildLine::Region(Region { locale, offset }))
}
