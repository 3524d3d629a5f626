//! Pseudonyms, known texts and masked fields from outside.
use jfr_filter::Patterns;
use jfr_layout::{ClassInfo, ClassList, Classes, FieldInfo, Fields, Shape};
use jfr_mask::{Dictionary, Known, MaskedFields, Shown};
use jfr_outside::{NoMemory, Text, Words};
use std::alloc::Global;
use std::process::Abort;
use std::test::Fail;

/// A text, and what is shown for it.
type Row = (&'static str, &'static str);

/// The bytes of a file of known texts, if there is one; texts in the order in which they are masked; the texts of the
/// dictionary.
type Case = (
    Option<&'static [u8]>,
    &'static [Row],
    &'static [&'static str],
);

static CASES: [Case; 4] = [
    (
        None,
        &[
            ("p", "masked-1"),
            ("q", "masked-2"),
            ("", ""),
            ("p", "masked-1"),
            ("(I)V", "()masked-3"),
            ("masked-1", "masked-4"),
            ("gr\u{FC}n", "masked-5"),
        ],
        &["p", "q", "(I)V", "masked-1", "gr\u{FC}n"],
    ),
    // A line that begins as a pseudonym doesn't count.
    (
        Some(b"q\nmasked-1\n()masked-2\n"),
        &[
            ("p", "masked-1"),
            ("q", "q"),
            ("masked-1", "masked-2"),
            ("()masked-2", "()masked-3"),
            ("", ""),
        ],
        &["p", "masked-1", "()masked-2"],
    ),
    // A carriage return belongs to its line, and so do blanks.
    (
        Some(b"main\r\n run"),
        &[
            ("main", "masked-1"),
            ("main\r", "main\r"),
            ("run", "masked-2"),
            (" run", " run"),
        ],
        &["main", "run"],
    ),
    // Bytes that aren't UTF-8 read as U+FFFD.
    (
        Some(b"a\xFFb\n\xC3\xA4"),
        &[
            ("a\u{FFFD}b", "a\u{FFFD}b"),
            ("\u{E4}", "\u{E4}"),
            ("ab", "masked-1"),
        ],
        &["ab"],
    ),
];

/// The known texts of a file, if there is one.
fn known_of(alloc: Global, file: Option<&[u8]>) -> Result<Known, NoMemory> {
    match file {
        Some(bytes) => Known::of(alloc, bytes),
        None => Ok(Known::new(alloc)),
    }
}

/// Adds the text to the dictionary, if it is neither empty nor known.
fn mask(known: &Known, dictionary: &mut Dictionary, text: &str) -> Result<(), NoMemory> {
    if !text.is_empty() && !known.has(text) {
        dictionary.add(text)?;
    }
    Ok(())
}

/// This is shown for the text, before and after it is added.
fn see_shown(
    rt: &impl Abort,
    alloc: Global,
    known: &Known,
    dictionary: &Dictionary,
    (text, wanted): Row,
) -> Result<(), Fail> {
    let shown = Shown::of(known, dictionary, text);
    let mut out = Vec::new(alloc);
    shown.push(&mut out)?;
    assert!(rt;
        out.as_slice() == wanted.as_bytes(),
        "{text} isn't {wanted}"
    );
    assert_eq!(rt; shown.len(), wanted.len(), "{text}");
    Ok(())
}

/// Masks the texts one after another.
fn see_rows(
    rt: &impl Abort,
    alloc: Global,
    known: &Known,
    dictionary: &mut Dictionary,
    rows: &[Row],
) -> Result<(), Fail> {
    for row in rows {
        see_shown(rt, alloc, known, dictionary, *row)?;
        mask(known, dictionary, row.0)?;
        see_shown(rt, alloc, known, dictionary, *row)?;
    }
    Ok(())
}

/// The dictionary has these texts, each at its number.
fn see_texts(rt: &impl Abort, dictionary: &Dictionary, texts: &[&str]) {
    assert_eq!(rt; dictionary.len(), texts.len());
    for (at, text) in texts.iter().enumerate() {
        assert!(rt; dictionary.get(at) == Some(*text), "{text}");
        assert!(rt; dictionary.number(text) == Some(at as u64 + 1), "{text}");
    }
}

/// A file, texts that are masked, and the dictionary after them.
fn see_case(rt: &impl Abort, alloc: Global, (file, rows, texts): Case) -> Result<(), Fail> {
    let known = known_of(alloc, file)?;
    let mut dictionary = Dictionary::new(alloc);
    see_rows(rt, alloc, &known, &mut dictionary, rows)?;
    see_texts(rt, &dictionary, texts);
    Ok(())
}

#[test]
fn pseudonyms(rt: HostRuntime) -> Result<(), Fail> {
    for case in CASES.iter() {
        see_case(&rt, rt.alloc(), *case)?;
    }
    Ok(())
}

/// A field: its name, the id of its class, and its constant mark.
type FieldRow = (&'static str, u64, bool);

/// The fields of the class `t.Node`. Class 6 is `java.lang.String`, class 7 the class itself.
static FIELDS: [FieldRow; 4] = [
    ("text", 6, false),
    ("next", 7, true),
    ("name", 6, true),
    ("n", 8, false),
];

/// The list of patterns of masked fields, that of exceptions, if there is one, which of the fields above are masked, and
/// whether constants are.
type Mask = (&'static str, Option<&'static str>, [bool; 4], bool);

static MASKS: [Mask; 5] = [
    ("t.Node.text", None, [true, false, false, false], false),
    ("t.Node.*", None, [true, false, true, false], true),
    ("*", Some("*.name"), [true, false, false, false], false),
    (
        "t.A.text,t.Node.next",
        None,
        [false, false, false, false],
        false,
    ),
    // A pattern matches the whole name, and not the part after a dot.
    ("text,Node.name", None, [false, false, false, false], false),
];

/// A field with this name, of this class.
fn field_of(alloc: Global, (name, class, constant): FieldRow) -> Result<FieldInfo, NoMemory> {
    Ok(FieldInfo {
        name: Text::make(alloc, name)?,
        shape: Shape {
            class,
            constant,
            array: false,
        },
    })
}

/// Fields of these rows.
fn fields_of(alloc: Global, rows: &[FieldRow]) -> Result<Fields, NoMemory> {
    let mut fields = Fields::new(alloc);
    for row in rows {
        let field = field_of(alloc, *row)?;
        fields.push(field)?;
    }
    Ok(fields)
}

/// A class with this id, this name and these fields.
fn class_of(alloc: Global, id: u64, name: &str, rows: &[FieldRow]) -> Result<ClassInfo, NoMemory> {
    let fields = fields_of(alloc, rows)?;
    Ok(ClassInfo {
        id,
        name: Text::make(alloc, name)?,
        super_name: None,
        fields,
        categories: Words::new(alloc),
    })
}

/// The classes `java.lang.String`, `t.Node` and `int`.
fn classes_of(alloc: Global) -> Result<Classes, Fail> {
    let mut list = ClassList::new(alloc);
    list.push(class_of(alloc, 6, "java.lang.String", &[])?)?;
    list.push(class_of(alloc, 7, "t.Node", &FIELDS)?)?;
    list.push(class_of(alloc, 8, "int", &[])?)?;
    Ok(Classes::make(alloc, list)?)
}

/// These patterns mask these fields.
fn see_mask(
    rt: &impl Abort,
    alloc: Global,
    classes: &Classes,
    (strings, except, wanted, constants): Mask,
) -> Result<(), Fail> {
    let strings = Patterns::read(alloc, strings)?;
    let except = match except {
        Some(list) => Some(Patterns::read(alloc, list)?),
        None => None,
    };
    let masked = MaskedFields::of(alloc, &strings, except.as_ref(), classes)?;
    for (number, is_masked) in wanted.iter().enumerate() {
        assert!(rt; masked.has(1, number) == *is_masked, "field {number}");
    }
    assert!(rt; masked.has_constants() == constants);
    assert!(rt; !masked.has(0, 0) && !masked.has(1, 4) && !masked.has(3, 0));
    Ok(())
}

#[test]
fn fields(rt: HostRuntime) -> Result<(), Fail> {
    let classes = classes_of(rt.alloc())?;
    for mask in MASKS.iter() {
        see_mask(&rt, rt.alloc(), &classes, *mask)?;
    }
    Ok(())
}
