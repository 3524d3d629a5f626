//! The folded stacks that `stacks` writes.
use crate::contents::FilePart::{JdkLike, Plain};
use crate::contents::{Content, OF_RINGS};
use crate::plays::{Play, see_play};
use std::test::Fail;

/// A chunk like the JDK's by itself, twice, with characters that are escaped in the method's name `wait`, and before a
/// chunk that is refused; and a chunk whose events have no stacks.
#[rattlefmt::skip]
const FILES: &[(&str, Content)] = &[
    ("jdk.jfr", (&[JdkLike], &[])),
    ("twice.jfr", (&[JdkLike, JdkLike], &[])),
    ("odd.jfr", (&[JdkLike], &[(135, 0x7F), (136, b';'), (137, b'\\'), (138, b' ')])),
    ("refused.jfr", (&[JdkLike, Plain], &[(1465, 8)])),
    ("rings.jfr", (&[OF_RINGS], &[])),
];

const BOTH: &str = "java/lang/Object.wait 1\njava/lang/Object.wait;app/Lock.run 1\n";

const ODD: &str = r"java/lang/Object.\u007f\u003b\u005c\u0020 1
java/lang/Object.\u007f\u003b\u005c\u0020;app/Lock.run 1
";

#[rattlefmt::skip]
static STACKS: Play = Play {
    files: FILES,
    faults: &[],
    commands: &[
        (&["stacks", "jdk.jfr"], 0, BOTH, ""),
        (&["stacks", "--events", "CPULoad", "jdk.jfr"], 0, "", ""),
        (&["stacks", "--events", "ThreadPark", "twice.jfr"], 0, "java/lang/Object.wait 2\n", ""),
        (&["stacks", "odd.jfr"], 0, ODD, ""),
        (&["stacks", "rings.jfr"], 0, "", ""),
        (&["stacks", "refused.jfr"], 2, "", "chunk 2 offset 96: RecordSize\n"),
        (&["stacks", "none.jfr"], 3, "", "read fault\n"),
    ],
    left: &[],
};

#[test]
fn stacks_are_counted(rt: HostRuntime) -> Result<(), Fail> {
    see_play(&rt, rt.alloc(), &STACKS)
}
