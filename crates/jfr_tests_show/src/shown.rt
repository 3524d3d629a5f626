//! Compares what is shown of events.
use jfr_chunk::Chunk;
use jfr_header::is_cut;
use jfr_outside::Text;
use jfr_show::{event_json, event_text};
use std::alloc::Global;
use std::process::Abort;
use std::test::Fail;

/// Reads the chunk of these bytes, and lends it.
pub(crate) fn with_chunk<F: FnOnce(&Chunk<'_>) -> Result<(), Fail> + Drop>(
    alloc: Global,
    bytes: &[u8],
    see: F,
) -> Result<(), Fail>
    requires { F.IsAlwaysCallable see }
{
    if !is_cut(bytes) {
        Err("no whole chunk")?;
    }
    let chunk = Chunk::read(alloc, bytes)?;
    see(&chunk)
}

/// How an event is shown.
#[derive(Clone, Copy)]
pub(crate) enum Form {
    Lines,
    Json,
}

/// How an event is shown, its number, to which depth, and the text.
pub(crate) type Shown = (Form, usize, u8, &'static str);

/// The text of an event.
fn text_of(
    alloc: Global,
    chunk: &Chunk<'_>,
    form: Form,
    number: usize,
    depth: u8,
) -> Result<Text, Fail> {
    if depth > 8 {
        Err("the depth is too large")?;
    }
    let event = chunk.event(number).ok_or("no event")?;
    match form {
        Form::Lines => Ok(event_text(alloc, chunk, &event, depth)?),
        Form::Json => Ok(event_json(alloc, chunk, &event, depth)?),
    }
}

/// Compares the text of an event.
fn compare_text(
    rt: &impl Abort,
    alloc: Global,
    chunk: &Chunk<'_>,
    (form, number, depth, expected): Shown,
) -> Result<(), Fail> {
    let text = text_of(alloc, chunk, form, number, depth)?;
    assert_eq!(rt; text.as_str(), expected);
    Ok(())
}

/// Compares texts of the events of a chunk.
fn compare_texts(
    rt: &impl Abort,
    alloc: Global,
    chunk: &Chunk<'_>,
    texts: &[Shown],
) -> Result<(), Fail> {
    for text in texts {
        compare_text(rt, alloc, chunk, *text)?;
    }
    Ok(())
}

/// Compares texts of the events of the chunk with these bytes.
pub(crate) fn compare(
    rt: &impl Abort,
    alloc: Global,
    bytes: &[u8],
    texts: &[Shown],
) -> Result<(), Fail> {
    with_chunk(alloc, bytes, |chunk| {
        compare_texts(rt, alloc, chunk, texts)
    })
}
