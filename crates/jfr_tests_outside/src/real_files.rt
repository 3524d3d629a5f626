//! Tests of real files, for what no clause can say about them.
use jfr_outside::{Fault, Place, Sink};
use jfr_system::{FilePlace, StreamSink};
use std::alloc::{Alloc, Global};
use std::fs::Files;
use std::io::BufWriter;
use std::process::Abort;
use std::test::Fail;
use std::{fs, io};

const NAME: &str = "jfr_file_place_test";

const FOLDER: &str = "jfr_file_place_folder";

const FIRST: &str = "jfr_file_place_first";

const SECOND: &str = "jfr_file_place_second";

const GROWING: &str = "jfr_file_place_growing";

const STREAM: &str = "jfr_stream_sink_test";

/// Creates the folder anew, with one file and one folder in it.
fn make_folder(rt: &HostRuntime) -> io::Result<()> {
    let _ = fs::remove_dir_all(rt, FOLDER);
    fs::create_dir(rt, FOLDER)?;
    fs::create_dir(rt, "jfr_file_place_folder/deeper")?;
    fs::write(rt, "jfr_file_place_folder/a.jfr", b"a")
}

/// Checks that this is the only name in the folder.
fn one_name<P: Place>(rt: &impl Abort, place: &mut P, alloc: Global, name: &str) {
    match place.list(alloc, FOLDER) {
        Ok(found) => {
            assert_eq!(rt; found.len(), 1);
            assert_eq!(rt; found.get(0), Some(name));
        }
        Err(_) => assert!(rt; false),
    }
}

/// Checks that the folder doesn't exist.
fn no_names<P: Place>(rt: &impl Abort, place: &mut P, alloc: Global) {
    match place.list(alloc, FOLDER) {
        Ok(_) => assert!(rt; false),
        Err(fault) => assert_eq!(rt; fault, Fault::Failed),
    }
}

/// Compares what calls say when there is no file and nothing is open.
fn see_nothing<P: Place>(rt: &impl Abort, place: &mut P) {
    assert!(rt; place.open_input(NAME).is_err());
    assert!(rt; place.append(b"a").is_err());
}

/// Writes the file.
fn write_file<P: Place>(rt: &impl Abort, place: &mut P, large: &[u8]) {
    assert!(rt; place.create_output(NAME).is_ok());
    assert!(rt; place.append(b"ab").is_ok());
    assert!(rt;
        place
            .append_pieces(&[b"cd".as_slice(), large, b"".as_slice(), b"e".as_slice()])
            .is_ok()
    );
    assert!(rt; place.append(b"f").is_ok());
    assert!(rt; place.finish_output().is_ok());
}

/// Compares what calls say when the output is finished, and the file is there.
fn see_finished<P: Place>(rt: &impl Abort, place: &mut P) {
    assert!(rt; place.append_pieces(&[b"g".as_slice()]).is_err());
    assert!(rt; place.create_output(NAME).is_err());
}

/// Reads the start of the file.
fn read_start<P: Place>(rt: &impl Abort, place: &mut P) {
    let mut front = [0; 5];
    assert!(rt; place.open_input(NAME).is_ok());
    assert!(rt; place.read(&mut front) == Ok(5));
    assert_eq!(rt; front, *b"abcd\x07");
    place.shut_input();
    assert!(rt; place.read(&mut front).is_err());
}

/// Writes the file, and reads its start.
fn write_and_read<P: Place>(rt: &impl Abort, place: &mut P, large: &[u8]) {
    see_nothing(rt, place);
    write_file(rt, place, large);
    see_finished(rt, place);
    read_start(rt, place);
}

#[test]
fn what_is_written_is_read_back(rt: HostRuntime) -> Result<(), Fail> {
    let alloc = rt.alloc();
    // An interrupted run may have left the file.
    let _ = fs::remove_file(&rt, NAME);
    // More bytes than one call writes.
    let large = vec![in alloc; 7u8; 1_100_000]?;
    write_and_read(&rt, &mut FilePlace::new(&rt, alloc), &large);
    assert_eq!(rt; fs::metadata(&rt, NAME)?.len(), 1_100_006);
    fs::remove_file(&rt, NAME)?;
    Ok(())
}

#[test]
fn a_folder_names_its_files(rt: HostRuntime) -> Result<(), Fail> {
    let alloc = rt.alloc();
    let mut place = FilePlace::new(&rt, alloc);
    make_folder(&rt)?;
    one_name(&rt, &mut place, alloc, "a.jfr");
    fs::remove_dir_all(&rt, FOLDER)?;
    no_names(&rt, &mut place, alloc);
    Ok(())
}

/// Opens a file, and checks the first byte that is read.
fn starts_with<P: Place>(rt: &impl Abort, place: &mut P, name: &str, first: u8) {
    let mut byte = [0; 1];
    assert!(rt; place.open_input(name).is_ok());
    assert!(rt; place.read(&mut byte) == Ok(1));
    assert_eq!(rt; byte, [first]);
}

/// Checks that the file isn't there, and that nothing is open after an attempt to open it.
fn is_missing<P: Place>(rt: &impl Abort, place: &mut P, name: &str) {
    let mut byte = [0; 1];
    assert!(rt; place.open_input(name).is_err());
    assert!(rt; place.read(&mut byte).is_err());
}

#[test]
fn a_file_is_opened_while_another_is_open(rt: HostRuntime) -> Result<(), Fail> {
    let mut place = FilePlace::new(&rt, rt.alloc());
    fs::write(&rt, FIRST, b"first")?;
    fs::write(&rt, SECOND, b"second")?;
    starts_with(&rt, &mut place, FIRST, b'f');
    starts_with(&rt, &mut place, SECOND, b's');
    fs::remove_file(&rt, FIRST)?;
    is_missing(&rt, &mut place, FIRST);
    fs::remove_file(&rt, SECOND)?;
    Ok(())
}

/// Checks all bytes of a file.
fn contains<R: Files + Alloc + Abort>(rt: &R, name: &str, bytes: &[u8]) -> io::Result<()> {
    let found = fs::read(rt, name)?;
    assert!(rt; found.as_slice() == bytes);
    Ok(())
}

#[test]
fn bytes_are_in_the_file_before_it_is_finished(rt: HostRuntime) -> Result<(), Fail> {
    let mut place = FilePlace::new(&rt, rt.alloc());
    let _ = fs::remove_file(&rt, GROWING);
    assert!(rt; place.create_output(GROWING).is_ok());
    assert!(rt; place.append(b"ab").is_ok());
    contains(&rt, GROWING, b"ab")?;
    let pieces = [b"cd".as_slice(), b"e".as_slice()];
    assert!(rt; place.append_pieces(&pieces).is_ok());
    contains(&rt, GROWING, b"abcde")?;
    fs::remove_file(&rt, GROWING)?;
    Ok(())
}

#[test]
fn a_stream_is_flushed_after_each_write(rt: HostRuntime) -> Result<(), Fail> {
    let file = fs::create(&rt, STREAM)?;
    let mut sink = StreamSink::new(BufWriter::new(rt.alloc(), file)?);
    assert!(rt; sink.write(b"ab").is_ok());
    contains(&rt, STREAM, b"ab")?;
    assert!(rt; sink.write(b"c").is_ok());
    contains(&rt, STREAM, b"abc")?;
    fs::remove_file(&rt, STREAM)?;
    Ok(())
}
