//! Commands over a place in memory, one after another, and the files that they leave.
use crate::contents::{Content, bytes_of};
use crate::places::place_of;
use crate::runs::{Said, say_all};
use jfr_outside::{Call, MemoryPlace, NoMemory};
use std::alloc::Global;
use std::process::Abort;
use std::test::Fail;

/// The files of a place, the calls that fail, the commands, and the files that are there then, or aren't.
#[derive(Clone, Copy)]
pub(crate) struct Play {
    pub(crate) files: &'static [(&'static str, Content)],
    /// Of each call the kind, which one, counted from 1, and how many bytes are kept if it is an append.
    pub(crate) faults: &'static [(Call, u64, usize)],
    pub(crate) commands: &'static [Said<'static>],
    pub(crate) left: &'static [(&'static str, Option<Content>)],
}

/// Makes calls fail.
fn make_fail(place: &mut MemoryPlace, faults: &[(Call, u64, usize)]) -> Result<(), NoMemory> {
    for (call, nth, keep) in faults {
        place.fail(*call, *nth, *keep)?;
    }
    Ok(())
}

/// Compares a file.
fn see_file(
    rt: &impl Abort,
    alloc: Global,
    place: &MemoryPlace,
    name: &str,
    content: Content,
) -> Result<(), Fail> {
    let bytes = bytes_of(alloc, content)?;
    assert!(rt; place.file(name) == Some(bytes.as_slice()), "{name}");
    Ok(())
}

/// Compares files.
fn see_files(
    rt: &impl Abort,
    alloc: Global,
    place: &MemoryPlace,
    files: &[(&str, Option<Content>)],
) -> Result<(), Fail> {
    for (name, content) in files {
        match content {
            Some(content) => see_file(rt, alloc, place, name, *content)?,
            None => assert!(rt; place.file(name).is_none(), "{name}"),
        }
    }
    Ok(())
}

/// Does what is done over a place.
fn see_play_in(
    rt: &impl Abort,
    alloc: Global,
    place: &mut MemoryPlace,
    play: &Play,
) -> Result<(), Fail> {
    make_fail(place, play.faults)?;
    say_all(rt, alloc, place, play.commands)?;
    see_files(rt, alloc, place, play.left)
}

/// Compares what commands over the files of a place say and leave.
pub(crate) fn see_play(rt: &impl Abort, alloc: Global, play: &Play) -> Result<(), Fail> {
    let mut place = place_of(alloc, play.files)?;
    see_play_in(rt, alloc, &mut place, play)
}

/// Compares it for each play.
pub(crate) fn see_plays(rt: &impl Abort, alloc: Global, plays: &[Play]) -> Result<(), Fail> {
    for play in plays {
        see_play(rt, alloc, play)?;
    }
    Ok(())
}
