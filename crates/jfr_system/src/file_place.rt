//! Real files. The contracts of `Place` are about the contents of all files, of which a proof can know nothing
//! here. So additional clauses say what a call does to the open file.
ghost use Rattle.std.specs.Prelude.{◌≡◌, ◌≤◌, length, IfOk, IsSome, None, OnErr, OnOk};
ghost use Rattle.std.specs.Io.KnownBytes.{Appends};
ghost use Rattle.jfr_outside.specs.Counts.{Counts};
ghost use Rattle.jfr_outside.specs.World.{bytes_in};
ghost use Rattle.jfr_system.specs.Edges.{untold, Grew, Took};

use crate::counts::failed;
use jfr_outside::{Fault, Place, Words};
use std::alloc::{Alloc, Global};
use std::fs::{Files, OpenOptions};
use std::io::{BufWriter, Error, ErrorKind, Read, Write};
use std::{fs, io};

/// The size of the buffer in which small pieces are collected for one write.
const GATHERED: usize = 65536;

/// The most bytes that one call writes. On Linux, much larger writes are slower for the same data.
const PORTION: usize = 1_048_576;

/// The files of the system, with at most one open input and one open output. An existing file is never opened
/// as the output. A call that fails raises its count, of read faults or of write faults; one that runs out of
/// memory raises none.
#[derive(Drop)]
pub struct FilePlace<'a, R: Files> {
    rt: &'a R,
    alloc: Global,
    input: Option<R::File>,
    output: Option<R::File>,
    read_faults: u64,
    write_faults: u64,
}

impl<'a, R: Files> FilePlace<'a, R> {
    /// Nothing is open, and no call has failed.
    pub fn new(rt: &'a R, alloc: Global) -> FilePlace<'a, R>
        ensures none_failed { untold result.read_faults result.write_faults ≡ untold 0 0 }
    {
        FilePlace {
            rt,
            alloc,
            input: None,
            output: None,
            read_faults: 0,
            write_faults: 0,
        }
    }
}

/// Writes pieces to a file, one after another, and returns the file. Small pieces are collected in a buffer.
/// If there is no memory for the buffer, nothing is written.
fn write_pieces<W: Write + Drop>(alloc: Global, file: W, pieces: &[&[u8]]) -> Result<W, Fault>
    ensures grew { IfOk result (λ new. Appends (W.contents file) (W.contents new) (bytes_in pieces.now)) }
{
    let Ok(mut writer) = BufWriter::with_capacity(alloc, GATHERED, file) else {
        return Err(Fault::Memory);
    };
    write_each(&mut writer, pieces)?;
    match writer.into_inner() {
        Ok(file) => Ok(file),
        Err(_) => Err(Fault::Failed),
    }
}

/// Writes pieces, one after another.
fn write_each<W: Write>(writer: &mut W, pieces: &[&[u8]]) -> Result<(), Fault>
    ensures grew { OnOk result (Appends (W.contents writer.old) (W.contents writer.new) (bytes_in pieces.now)) }
{
    for piece in pieces {
        write_portions(writer, piece)?;
    }
    Ok(())
}

/// Writes bytes, a portion at a time.
fn write_portions<W: Write>(writer: &mut W, bytes: &[u8]) -> Result<(), Fault>
    ensures grew { OnOk result (Appends (W.contents writer.old) (W.contents writer.new) bytes.now) }
{
    for portion in bytes.chunks(PORTION) {
        match writer.write_all(portion) {
            Ok(()) => {}
            Err(_) => return Err(Fault::Failed),
        }
    }
    Ok(())
}

/// The names of the regular files in a folder, in the order of the system, which lists each name once.
fn names_in<R: Files + Alloc + Clone + Drop>(
    rt: &R,
    alloc: Global,
    folder: &str,
) -> io::Result<Words> {
    let mut names = Words::new(alloc);
    for entry in fs::read_dir(rt, folder)? {
        let entry = entry?;
        if is_file(rt, entry.path().as_str())? && names.push(entry.file_name()).is_err() {
            return Err(Error::from(ErrorKind::OutOfMemory));
        }
    }
    Ok(names)
}

/// Whether a path leads to a regular file. A broken link doesn't, and is skipped as a folder is, since
/// nothing could open it.
fn is_file<R: Files>(rt: &R, path: &str) -> io::Result<bool> {
    match fs::metadata(rt, path) {
        Ok(metadata) => Ok(metadata.is_file()),
        Err(error) if error.kind() == ErrorKind::NotFound => Ok(false),
        Err(error) => Err(error),
    }
}

impl<'a, R: Files + Alloc + Clone + Drop> Place for FilePlace<'a, R> {
    ghost state = { λ p. untold p.read_faults p.write_faults };

    fn open_input(&mut self, name: &str) -> Result<(), Fault>
        ensures open { OnOk result (IsSome self.new.input) }
        ensures shut { OnErr result (self.new.input ≡ None) }
        ensures reads { Counts result self.old.read_faults self.new.read_faults }
        ensures writes { self.new.write_faults ≡ self.old.write_faults }
    {
        self.input = None;
        match fs::open(self.rt, name) {
            Ok(file) => {
                self.input = Some(file);
                Ok(())
            }
            Err(_) => Err(failed(&mut self.read_faults)),
        }
    }

    fn read(&mut self, into: &mut [u8]) -> Result<usize, Fault>
        ensures bound { IfOk result (λ n. n ≤ length into.new) }
        ensures took { Took R.File.remaining self.old.input self.new.input result into.new }
        ensures reads { Counts result self.old.read_faults self.new.read_faults }
        ensures writes { self.new.write_faults ≡ self.old.write_faults }
    {
        let count = match &mut self.input {
            Some(file) => file.read(into),
            None => return Err(failed(&mut self.read_faults)),
        };
        match count {
            Ok(count) => Ok(count),
            Err(_) => Err(failed(&mut self.read_faults)),
        }
    }

    fn shut_input(&mut self)
        ensures shut { self.new.input ≡ None }
        ensures reads { self.new.read_faults ≡ self.old.read_faults }
        ensures writes { self.new.write_faults ≡ self.old.write_faults }
    {
        self.input = None;
    }

    fn create_output(&mut self, name: &str) -> Result<(), Fault>
        ensures open { OnOk result ((self.old.output ≡ None) × IsSome self.new.output) }
        ensures shut { OnErr result (self.new.output ≡ None) }
        ensures reads { self.new.read_faults ≡ self.old.read_faults }
        ensures writes { Counts result self.old.write_faults self.new.write_faults }
    {
        if self.output.is_some() {
            self.output = None;
            return Err(failed(&mut self.write_faults));
        }
        match OpenOptions::new()
            .write(true)
            .create_new(true)
            .open(self.rt, name)
        {
            Ok(file) => {
                self.output = Some(file);
                Ok(())
            }
            Err(_) => Err(failed(&mut self.write_faults)),
        }
    }

    fn append(&mut self, bytes: &[u8]) -> Result<(), Fault>
        ensures grew { OnOk result (Grew R.File.contents self.old.output self.new.output bytes.now) }
        ensures reads { self.new.read_faults ≡ self.old.read_faults }
        ensures writes { Counts result self.old.write_faults self.new.write_faults }
    {
        let written = match &mut self.output {
            Some(file) => write_portions(file, bytes),
            None => return Err(failed(&mut self.write_faults)),
        };
        match written {
            Ok(()) => Ok(()),
            Err(_) => Err(failed(&mut self.write_faults)),
        }
    }

    /// If the call fails or runs out of memory, the file is closed.
    fn append_pieces(&mut self, pieces: &[&[u8]]) -> Result<(), Fault>
        ensures grew { OnOk result (Grew R.File.contents self.old.output self.new.output (bytes_in pieces.now)) }
        ensures shut { OnErr result (self.new.output ≡ None) }
        ensures reads { self.new.read_faults ≡ self.old.read_faults }
        ensures writes { Counts result self.old.write_faults self.new.write_faults }
    {
        let Some(file) = self.output.take() else {
            return Err(failed(&mut self.write_faults));
        };
        match write_pieces(self.alloc, file, pieces) {
            Ok(file) => {
                self.output = Some(file);
                Ok(())
            }
            Err(Fault::Memory) => Err(Fault::Memory),
            Err(Fault::Failed) => Err(failed(&mut self.write_faults)),
        }
    }

    fn finish_output(&mut self) -> Result<(), Fault>
        ensures shut { self.new.output ≡ None }
        ensures open { OnOk result (IsSome self.old.output) }
        ensures reads { self.new.read_faults ≡ self.old.read_faults }
        ensures writes { Counts result self.old.write_faults self.new.write_faults }
    {
        let flushed = match &mut self.output {
            Some(file) => file.flush(),
            None => return Err(failed(&mut self.write_faults)),
        };
        self.output = None;
        match flushed {
            Ok(()) => Ok(()),
            Err(_) => Err(failed(&mut self.write_faults)),
        }
    }

    /// The regular files, after following links. If the folder doesn't exist or a name isn't UTF-8, the call
    /// fails.
    fn list(&mut self, alloc: Global, folder: &str) -> Result<Words, Fault>
        ensures input { self.new.input ≡ self.old.input }
        ensures output { self.new.output ≡ self.old.output }
        ensures reads { Counts result self.old.read_faults self.new.read_faults }
        ensures writes { self.new.write_faults ≡ self.old.write_faults }
    {
        match names_in(self.rt, alloc, folder) {
            Ok(names) => Ok(names),
            Err(error) if error.kind() == ErrorKind::OutOfMemory => Err(Fault::Memory),
            Err(_) => Err(failed(&mut self.read_faults)),
        }
    }
}
