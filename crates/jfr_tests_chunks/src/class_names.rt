//! Which strings of the metadata's table name the classes.
use crate::reading::with_chunk;
use jfr_chunk::Chunk;
use jfr_fixtures::jdk_like;
use jfr_meta::ClassNames;
use std::alloc::Global;
use std::process::Abort;
use std::test::Fail;

/// The name of a class and its categories.
type Named = (&'static str, &'static [&'static str]);

/// The last classes of the chunk that is like the JDK's.
const LAST_CLASSES: [Named; 3] = [
    ("jdk.ThreadPark", &["Java Application"]),
    ("jdk.JavaMonitorEnter", &["Java Application"]),
    ("jdk.CPULoad", &["Operating System", "Processor"]),
];

/// The name of a class.
fn name_of<'c>(chunk: &'c Chunk<'_>, names: &ClassNames) -> Option<&'c str> {
    chunk.strings().get(names.name as usize)
}

/// The category of a class with this number, from 0.
fn category<'c>(chunk: &'c Chunk<'_>, names: &ClassNames, number: usize) -> Option<&'c str> {
    let index = names.categories.get(number)?;
    chunk.strings().get(*index as usize)
}

/// Compares the texts of the strings that name a class.
fn compare_names(
    rt: &impl Abort,
    chunk: &Chunk<'_>,
    names: &ClassNames,
    (name, categories): Named,
) {
    assert!(rt; name_of(chunk, names) == Some(name), "{name}");
    assert!(rt; names.categories.len() == categories.len(), "{name}");
    for (number, expected) in categories.iter().enumerate() {
        assert!(rt; category(chunk, names, number) == Some(*expected), "{name}");
    }
}

/// Compares those of the last classes.
fn compare_last(rt: &impl Abort, chunk: &Chunk<'_>, names: &[ClassNames]) -> Result<(), Fail> {
    let first = names.len().saturating_sub(LAST_CLASSES.len());
    for (number, named) in LAST_CLASSES.iter().enumerate() {
        let class = names
            .get(first.saturating_add(number))
            .ok_or("too few classes")?;
        compare_names(rt, chunk, class, *named);
    }
    Ok(())
}

/// Each class of a chunk has its names.
fn compare_all(rt: &impl Abort, alloc: Global, chunk: &Chunk<'_>) -> Result<(), Fail> {
    let names = chunk.class_names(alloc)?;
    assert_eq!(rt; names.len(), chunk.classes().len());
    compare_last(rt, chunk, &names)
}

#[test]
fn strings_name_the_classes(rt: HostRuntime) -> Result<(), Fail> {
    let bytes = jdk_like(rt.alloc())?;
    with_chunk(rt.alloc(), &bytes, |chunk| {
        compare_all(&rt, rt.alloc(), chunk)
    })
}
