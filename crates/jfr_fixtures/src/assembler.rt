//! An assembler: the bytes of records from a source with a line for each element, constant and field.
use std::alloc::{AllocError, Global};

/// An attribute of an element: its key and its value.
pub type Attribute = (&'static str, &'static str);

/// An element of a metadata record: its name, its attributes, and how many of those that follow are in it.
pub type Element = (&'static str, &'static [Attribute], usize);

/// The source of a metadata record, which starts at 0, takes no time and has the identifier 1.
#[derive(Clone, Copy, Debug)]
pub struct Metadata {
    /// In how many bytes its size is written.
    pub width: usize,
    /// The texts that come first in its table. All others follow in order of first use.
    pub texts: &'static [&'static str],
    /// How many elements are in the element `metadata`.
    pub classes: usize,
    /// These elements, each before those in it.
    pub elements: &'static [&'static [Element]],
}

/// The source of bytes.
#[derive(Clone, Copy, Debug)]
pub enum Source {
    /// These bytes.
    Bytes(&'static [u8]),
    /// Lines of bytes, one after another.
    Lines(&'static [&'static [u8]]),
    /// A metadata record.
    Record(Metadata),
}

/// The texts of a metadata record, and its elements as bytes.
#[derive(Drop)]
struct Tree {
    texts: Vec<&'static str>,
    bytes: Vec<u8>,
}

/// Adds a number in this many bytes, each with seven bits of it.
fn push_number(bytes: &mut Vec<u8>, number: usize, width: usize) -> Result<(), AllocError> {
    let mut left = number;
    for _ in 1..width {
        bytes.push((left & 0x7F) as u8 | 0x80)?;
        left >>= 7;
    }
    bytes.push((left & 0x7F) as u8)?;
    Ok(())
}

/// The place of a text in a table.
fn place_of(texts: &[&'static str], text: &str) -> Option<usize> {
    for (at, known) in texts.iter().enumerate() {
        if *known == text {
            return Some(at);
        }
    }
    None
}

/// The place of a text in a table, to which it is added if it isn't there.
fn added(texts: &mut Vec<&'static str>, text: &'static str) -> Result<usize, AllocError> {
    if let Some(at) = place_of(texts, text) {
        return Ok(at);
    }
    let at = texts.len();
    texts.push(text)?;
    Ok(at)
}

/// Adds the place of a text.
fn push_place(tree: &mut Tree, text: &'static str) -> Result<(), AllocError> {
    let at = added(&mut tree.texts, text)?;
    push_number(&mut tree.bytes, at, 1)
}

/// Adds attributes.
fn push_attributes(tree: &mut Tree, attributes: &[Attribute]) -> Result<(), AllocError> {
    for (key, value) in attributes {
        push_place(tree, key)?;
        push_place(tree, value)?;
    }
    Ok(())
}

/// Adds an element.
fn push_element(tree: &mut Tree, (name, attributes, inner): Element) -> Result<(), AllocError> {
    push_place(tree, name)?;
    push_number(&mut tree.bytes, attributes.len(), 1)?;
    push_attributes(tree, attributes)?;
    push_number(&mut tree.bytes, inner, 1)
}

/// Adds elements.
fn push_elements(tree: &mut Tree, elements: &[Element]) -> Result<(), AllocError> {
    for element in elements {
        push_element(tree, *element)?;
    }
    Ok(())
}

/// The tree of a metadata record.
fn tree_of(alloc: Global, source: Metadata) -> Result<Tree, AllocError> {
    let texts = Vec::from_slice(alloc, source.texts)?;
    let bytes = Vec::new(alloc);
    let mut tree = Tree { texts, bytes };
    push_elements(
        &mut tree,
        &[("root", &[], 1), ("metadata", &[], source.classes)],
    )?;
    for elements in source.elements {
        push_elements(&mut tree, elements)?;
    }
    Ok(tree)
}

/// Adds a table of texts.
fn push_texts(bytes: &mut Vec<u8>, texts: &[&'static str]) -> Result<(), AllocError> {
    push_number(bytes, texts.len(), 1)?;
    for text in texts {
        bytes.push(3)?;
        push_number(bytes, text.len(), 1)?;
        bytes.extend_from_slice(text.as_bytes())?;
    }
    Ok(())
}

/// Adds a metadata record. Its texts are at most 127, and none has more than 127 bytes.
fn push_metadata(bytes: &mut Vec<u8>, alloc: Global, source: Metadata) -> Result<(), AllocError> {
    let tree = tree_of(alloc, source)?;
    let mut body = Vec::from_slice(alloc, [0, 0, 0, 1].as_slice())?;
    push_texts(&mut body, &tree.texts)?;
    body.extend_from_slice(&tree.bytes)?;
    push_number(bytes, body.len().saturating_add(source.width), source.width)?;
    bytes.extend_from_slice(&body)
}

/// Adds lines of bytes.
fn push_lines(bytes: &mut Vec<u8>, lines: &[&[u8]]) -> Result<(), AllocError> {
    for line in lines {
        bytes.extend_from_slice(line)?;
    }
    Ok(())
}

/// Adds the bytes of a source.
fn push_source(bytes: &mut Vec<u8>, alloc: Global, source: Source) -> Result<(), AllocError> {
    match source {
        Source::Bytes(line) => bytes.extend_from_slice(line),
        Source::Lines(lines) => push_lines(bytes, lines),
        Source::Record(metadata) => push_metadata(bytes, alloc, metadata),
    }
}

/// The bytes of sources, one after another.
pub fn assembled(alloc: Global, sources: &[Source]) -> Result<Vec<u8>, AllocError> {
    let mut bytes = Vec::new(alloc);
    for source in sources {
        push_source(&mut bytes, alloc, *source)?;
    }
    Ok(bytes)
}
