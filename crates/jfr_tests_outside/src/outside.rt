//! Places and sinks in memory, through their traits, and texts.
use crate::places::{
    Script, append, append_piece, create, finish, open, place_of, read, steady_place_of,
};
use jfr_outside::{
    Call, Fault, MemoryPlace, MemorySink, NoMemory, Place, Sink, SteadyPlace, SteadySink, Text,
    Words,
};
use std::alloc::Global;
use std::process::Abort;
use std::test::Fail;

/// Copies the next four bytes of the input to the output, or fewer at its end.
fn copy_whole<P: Place>(place: &mut P) -> Result<(), Fault> {
    let mut bytes = [0; 4];
    let count = place.read(&mut bytes)?;
    place.append(&bytes[..count])
}

/// Copies them as two pieces.
fn copy_halves<P: Place>(place: &mut P) -> Result<(), Fault> {
    let mut bytes = [0; 4];
    let count = place.read(&mut bytes)?;
    let (front, back) = bytes[..count].split_at(count / 2);
    place.append_pieces(&[front, back])
}

/// Copies at most 32 bytes, whole or as two pieces by turns.
fn copy_bytes<P: Place>(place: &mut P) -> Result<(), Fault> {
    for _ in 0..4 {
        copy_whole(place)?;
        copy_halves(place)?;
    }
    Ok(())
}

/// Copies the file a to a new file b.
fn copy<P: Place>(place: &mut P) -> Result<(), Fault> {
    open(place, "a")?;
    create(place, "b")?;
    copy_bytes(place)?;
    place.shut_input();
    finish(place)
}

const FAILED: Result<(), Fault> = Err(Fault::Failed);

/// Calls for which a place without scripts and without an open file has a cause to fail.
fn misuse<P: Place>(rt: &impl Abort, place: &mut P) {
    assert_eq!(rt; open(place, "c"), FAILED);
    assert_eq!(rt; read(place), Err(Fault::Failed));
    assert_eq!(rt; append(place, b"x"), FAILED);
    assert_eq!(rt; append_piece(place, b"x"), FAILED);
    assert_eq!(rt; finish(place), FAILED);
}

/// Creates whose names are there, or for which another output is open; the file a is there.
fn miscreate<P: Place>(rt: &impl Abort, place: &mut P) {
    assert_eq!(rt; create(place, "a"), FAILED);
    assert_eq!(rt; create(place, "b"), Ok(()));
    assert_eq!(rt; create(place, "c"), FAILED);
    assert_eq!(rt; append(place, b"x"), FAILED);
}

/// A script, the size of the reads, the answer of the copy, and what b has then.
struct Row {
    script: Option<Script>,
    size: usize,
    answer: Result<(), Fault>,
    copied: Option<&'static str>,
}

#[rattlefmt::skip]
static ROWS: [Row; 12] = [
    Row { script: None, size: 100, answer: Ok(()), copied: Some("abcdefg") },
    Row { script: None, size: 1, answer: Ok(()), copied: Some("abcdefg") },
    Row { script: None, size: 3, answer: Ok(()), copied: Some("abcdefg") },
    Row { script: Some((Call::Open, 1, 0)), size: 100, answer: FAILED, copied: None },
    Row { script: Some((Call::Create, 1, 0)), size: 100, answer: FAILED, copied: None },
    Row { script: Some((Call::Read, 1, 0)), size: 100, answer: FAILED, copied: Some("") },
    Row { script: Some((Call::Read, 2, 0)), size: 3, answer: FAILED, copied: Some("abc") },
    Row { script: Some((Call::Append, 2, 2)), size: 100, answer: FAILED, copied: Some("abcdef") },
    Row { script: Some((Call::Append, 2, 9)), size: 100, answer: FAILED, copied: Some("abcdefg") },
    Row { script: Some((Call::Finish, 1, 0)), size: 100, answer: FAILED, copied: Some("abcdefg") },
    Row { script: Some((Call::Finish, 2, 0)), size: 100, answer: Ok(()), copied: Some("abcdefg") },
    Row { script: Some((Call::Read, 0, 0)), size: 100, answer: Ok(()), copied: Some("abcdefg") },
];

/// Copies the file, and compares the answer and what b has then.
fn see_copy(rt: &impl Abort, place: &mut MemoryPlace, row: &Row) {
    assert_eq!(rt; copy(place), row.answer);
    assert_eq!(rt; place.file("b"), row.copied.map(|text| text.as_bytes()));
}

/// Compares the copy of a row.
fn see_row(rt: &impl Abort, alloc: Global, row: &Row) -> Result<(), Fail> {
    let mut place = place_of(alloc, b"abcdefg", row.size, row.script)?;
    see_copy(rt, &mut place, row);
    Ok(())
}

#[test]
fn a_place_fails_by_its_scripts(rt: HostRuntime) -> Result<(), Fail> {
    for row in ROWS.iter() {
        see_row(&rt, rt.alloc(), row)?;
    }
    Ok(())
}

/// A steady place fails for a cause.
fn see_steady_place(rt: &impl Abort, alloc: Global) -> Result<(), Fail> {
    let mut place = steady_place_of(alloc, b"abcdefg")?;
    misuse(rt, &mut place);
    miscreate(rt, &mut place);
    Ok(())
}

/// So does a place without scripts.
fn see_place(rt: &impl Abort, alloc: Global) -> Result<(), Fail> {
    let mut place = place_of(alloc, b"abcdefg", 100, None)?;
    misuse(rt, &mut place);
    miscreate(rt, &mut place);
    Ok(())
}

#[test]
fn a_place_fails_for_a_cause(rt: HostRuntime) -> Result<(), Fail> {
    see_steady_place(&rt, rt.alloc())?;
    see_place(&rt, rt.alloc())
}

/// Sets the output, and appends to it.
fn set_output(place: &mut SteadyPlace) -> Result<(), Fail> {
    create(place, "a")?;
    place.put("a", b"abc")?;
    append(place, b"d")?;
    Ok(())
}

/// The output has both.
fn see_set(rt: &impl Abort, place: &SteadyPlace) {
    assert_eq!(rt; place.file("a"), Some(b"abcd".as_slice()));
}

#[test]
fn a_file_may_be_set_while_it_is_the_output(rt: HostRuntime) -> Result<(), Fail> {
    let mut place = SteadyPlace::new(rt.alloc());
    set_output(&mut place)?;
    see_set(&rt, &place);
    Ok(())
}

/// Two files in the folder d, and others beside it.
static FILES: [&str; 5] = ["d/grün", "d/a", "d/a/b", "da", "/d/a"];

/// Puts them.
fn fill(place: &mut MemoryPlace) -> Result<(), NoMemory> {
    for name in FILES.iter() {
        place.put(name, b"")?;
    }
    Ok(())
}

/// The names of the files in the folder d.
fn names(place: &mut MemoryPlace, alloc: Global) -> Result<Words, Fault> {
    place.list(alloc, "d")
}

/// Compares words with these.
fn compare_words(rt: &impl Abort, words: &Words, expected: &[&str]) {
    assert_eq!(rt; words.len(), expected.len());
    for (number, word) in expected.iter().enumerate() {
        assert!(rt; words.get(number) == Some(*word), "{word}");
    }
    assert!(rt; words.get(expected.len()).is_none());
}

/// Compares the names.
fn compare_names(rt: &impl Abort, alloc: Global, place: &mut MemoryPlace) -> Result<(), Fail> {
    let found = names(place, alloc)?;
    compare_words(rt, &found, &["a", "grün"]);
    Ok(())
}

/// Lists the folder, and once more when that has to fail.
fn see_folder(rt: &impl Abort, alloc: Global, place: &mut MemoryPlace) -> Result<(), Fail> {
    fill(place)?;
    compare_names(rt, alloc, place)?;
    place.fail(Call::List, 1, 0)?;
    assert_eq!(rt; names(place, alloc).err(), Some(Fault::Failed));
    Ok(())
}

#[test]
fn a_folder_names_its_own_files(rt: HostRuntime) -> Result<(), Fail> {
    let mut place = MemoryPlace::new(rt.alloc());
    see_folder(&rt, rt.alloc(), &mut place)
}

/// Writes five bytes by two writes.
fn write_twice<S: Sink>(sink: &mut S) -> Result<(), Fault> {
    sink.write(b"ab")?;
    sink.write(b"cde")
}

/// Writes to a steady sink.
fn see_steady_sink(rt: &impl Abort, sink: &mut SteadySink) {
    assert_eq!(rt; write_twice(sink), Ok(()));
    assert_eq!(rt; sink.bytes(), b"abcde".as_slice());
}

/// Writes to a sink whose second write has to fail.
fn see_failing_sink(rt: &impl Abort, sink: &mut MemorySink) -> Result<(), Fail> {
    sink.fail(2, 1)?;
    assert_eq!(rt; write_twice(sink), FAILED);
    assert_eq!(rt; sink.bytes(), b"abc".as_slice());
    Ok(())
}

#[test]
fn a_sink_fails_by_its_scripts(rt: HostRuntime) -> Result<(), Fail> {
    let mut steady = SteadySink::new(rt.alloc());
    see_steady_sink(&rt, &mut steady);
    let mut sink = MemorySink::new(rt.alloc());
    see_failing_sink(&rt, &mut sink)
}

/// Adds an empty text, and this one.
fn push_words(words: &mut Words, text: &Text) -> Result<(), NoMemory> {
    words.push("")?;
    words.push(text.as_str())
}

/// Words of both.
fn two_words(alloc: Global, text: &Text) -> Result<Words, NoMemory> {
    let mut words = Words::new(alloc);
    push_words(&mut words, text)?;
    Ok(words)
}

/// Compares them.
fn see_words(rt: &impl Abort, alloc: Global, text: &Text) -> Result<(), Fail> {
    let words = two_words(alloc, text)?;
    compare_words(rt, &words, &["", "grün"]);
    Ok(())
}

#[test]
fn words_keep_their_texts(rt: HostRuntime) -> Result<(), Fail> {
    let text = Text::make(rt.alloc(), "grün")?;
    see_words(&rt, rt.alloc(), &text)
}
