//! The texts of events.
ghost use Rattle.std.specs.Prelude.{◌≤◌};

use crate::kinds::kinds;
use crate::shown::Form::Lines;
use crate::shown::{Shown, compare, with_chunk};
use jfr_chunk::Chunk;
use jfr_fixtures::{RINGS, STRINGS, jdk_like, with_classes};
use jfr_outside::NoMemory;
use jfr_show::{TextBuilder, show_event};
use std::alloc::Global;
use std::process::Abort;
use std::test::Fail;

/// Adds the text of event `number`.
fn add_text(
    chunk: &Chunk<'_>,
    number: usize,
    depth: u8,
    out: &mut TextBuilder,
) -> Result<(), NoMemory>
    requires { depth ≤ 8 }
{
    match chunk.event(number) {
        Some(event) => show_event(chunk, &event, depth, out),
        None => Err(NoMemory),
    }
}

/// Adds the texts of the first two events, one after the other, to a builder that is cleared.
fn add_two_texts(chunk: &Chunk<'_>, out: &mut TextBuilder) -> Result<(), NoMemory> {
    out.push_ascii("left")?;
    out.clear();
    add_text(chunk, 0, 0, out)?;
    add_text(chunk, 1, 0, out)
}

/// Compares them.
fn compare_two_texts(rt: &impl Abort, alloc: Global, chunk: &Chunk<'_>) -> Result<(), Fail> {
    let mut out = TextBuilder::new(alloc);
    add_two_texts(chunk, &mut out)?;
    let text = "t.A {\n  n = 300\n  node = t.Node#1\n}\nt.B {\n  node = t.Node#3\n}\n";
    assert_eq!(rt; out.as_bytes(), text.as_bytes());
    Ok(())
}

#[test]
fn events_follow_one_another(rt: HostRuntime) -> Result<(), Fail> {
    let bytes = with_classes(rt.alloc(), RINGS, 333)?;
    with_chunk(rt.alloc(), &bytes, |chunk| {
        compare_two_texts(&rt, rt.alloc(), chunk)
    })
}

/// The events of the chunk of rings, to the depth 0 and to the depth 2.
const FLAT_A: &str = "t.A {
  n = 300
  node = t.Node#1
}
";

const FLAT_B: &str = "t.B {
  node = t.Node#3
}
";

const DEEP_A: &str = "t.A {
  n = 300
  node = t.Node {
    next = t.Node {
      next = t.Node#1
      text = \"q\"
    }
    text = \"p\"
  }
}
";

const DEEP_B: &str = "t.B {
  node = t.Node {
    next = t.Node {
      next = t.Node#3
      text = \"s\"
    }
    text = \"r\"
  }
}
";

const OF_RINGS: [Shown; 4] = [
    (Lines, 0, 0, FLAT_A),
    (Lines, 1, 0, FLAT_B),
    (Lines, 0, 2, DEEP_A),
    (Lines, 1, 2, DEEP_B),
];

#[test]
fn references_are_followed_to_the_depth(rt: HostRuntime) -> Result<(), Fail> {
    let bytes = with_classes(rt.alloc(), RINGS, 333)?;
    compare(&rt, rt.alloc(), &bytes, &OF_RINGS)
}

const MISSING: &str = "t.A {
  n = 300
  node = t.Node {
    next = t.Node#0 (missing)
    text = java.lang.String#2
  }
}
";

#[test]
fn missing_constants_are_shown(rt: HostRuntime) -> Result<(), Fail> {
    let bytes = with_classes(rt.alloc(), STRINGS, 330)?;
    compare(&rt, rt.alloc(), &bytes, &[(Lines, 0, 2, MISSING)])
}

const OF_EACH_KIND: &str = "t.All {
  flag = true
  small = -1
  letter = 65535
  low = -1
  count = -2147483648
  wide = -1
  ratio = 0x3f800000
  exact = 0x3ff0000000000000
  none = null
  empty = \"\"
  told = \"a\\\"\\\\\\u000a\\u007fä\"
  units = \"b€\"
  latin = \"ä\"
  place = t.Place {
    x = 7
  }
  numbers = [
    1
    -1
  ]
  places = [
    t.Place {
      x = 5
    }
  ]
  nothing = [
  ]
  keys = [
    t.Place {
      x = 3
    }
    t.Place#9 (missing)
  ]
}
";

#[test]
fn values_of_each_kind_are_shown(rt: HostRuntime) -> Result<(), Fail> {
    let bytes = kinds(rt.alloc())?;
    compare(&rt, rt.alloc(), &bytes, &[(Lines, 0, 1, OF_EACH_KIND)])
}

const PARK: &str = "jdk.ThreadPark {
  startTime = 1000
  duration = 50
  eventThread = java.lang.Thread {
    osName = \"main\"
    osThreadId = 100
    javaName = \"main\"
    javaThreadId = 1
  }
  stackTrace = jdk.types.StackTrace {
    truncated = false
    frames = [
      jdk.types.StackFrame {
        method = jdk.types.Method#1
        lineNumber = 10
        bytecodeIndex = 2
      }
    ]
  }
  parkedClass = java.lang.Class {
    name = jdk.types.Symbol#1
    modifiers = 1
  }
}
";

#[test]
fn a_stack_trace_is_shown(rt: HostRuntime) -> Result<(), Fail> {
    compare(
        &rt,
        rt.alloc(),
        &jdk_like(rt.alloc())?,
        &[(Lines, 0, 1, PARK)],
    )
}
