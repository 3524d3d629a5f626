//! The text of the metadata, and its JSON.
use crate::kinds::{kinds, oddly_named};
use crate::shown::with_chunk;
use jfr_chunk::Chunk;
use jfr_fixtures::{RINGS, inert, jdk_like, with_classes};
use jfr_show::{metadata_json, metadata_text};
use std::alloc::Global;
use std::process::Abort;
use std::test::Fail;

/// Of the chunk of rings.
const OF_RINGS: &str = "chunk 1
long id 5
java.lang.String id 6
t.Node id 7
  next: t.Node constant
  text: java.lang.String
t.A id 8 super jdk.jfr.Event
  n: long
  node: t.Node constant
t.B id 9 super jdk.jfr.Event
  node: t.Node constant
";

const RINGS_JSON: &str =
    r#"{"chunk":1,"name":"long","id":5,"super":null,"categories":[],"fields":[]}
{"chunk":1,"name":"java.lang.String","id":6,"super":null,"categories":[],"fields":[]}
{"chunk":1,"name":"t.Node","id":7,"super":null,"categories":[],"fields":[{"name":"next","class":"t.Node","class_id":7,"constant":true,"array":false},{"name":"text","class":"java.lang.String","class_id":6,"constant":false,"array":false}]}
{"chunk":1,"name":"t.A","id":8,"super":"jdk.jfr.Event","categories":[],"fields":[{"name":"n","class":"long","class_id":5,"constant":false,"array":false},{"name":"node","class":"t.Node","class_id":7,"constant":true,"array":false}]}
{"chunk":1,"name":"t.B","id":9,"super":"jdk.jfr.Event","categories":[],"fields":[{"name":"node","class":"t.Node","class_id":7,"constant":true,"array":false}]}
"#;

/// Of the chunk of rings whose class `t.A` has another name, with a quote, a control character and the end of a
/// line.
const OF_ODD_NAME: &str = "chunk 1
long id 5
java.lang.String id 6
t.Node id 7
  next: t.Node constant
  text: java.lang.String
\"\u{1}
 id 8 super jdk.jfr.Event
  n: long
  node: t.Node constant
t.B id 9 super jdk.jfr.Event
  node: t.Node constant
";

const ODD_NAME_JSON: &str =
    r#"{"chunk":1,"name":"long","id":5,"super":null,"categories":[],"fields":[]}
{"chunk":1,"name":"java.lang.String","id":6,"super":null,"categories":[],"fields":[]}
{"chunk":1,"name":"t.Node","id":7,"super":null,"categories":[],"fields":[{"name":"next","class":"t.Node","class_id":7,"constant":true,"array":false},{"name":"text","class":"java.lang.String","class_id":6,"constant":false,"array":false}]}
{"chunk":1,"name":"\"\u0001\n","id":8,"super":"jdk.jfr.Event","categories":[],"fields":[{"name":"n","class":"long","class_id":5,"constant":false,"array":false},{"name":"node","class":"t.Node","class_id":7,"constant":true,"array":false}]}
{"chunk":1,"name":"t.B","id":9,"super":"jdk.jfr.Event","categories":[],"fields":[{"name":"node","class":"t.Node","class_id":7,"constant":true,"array":false}]}
"#;

/// Of the chunk with values of each kind, which has arrays of values and of references.
const OF_KINDS: &str = "chunk 1
boolean id 10
byte id 11
char id 12
short id 13
int id 14
long id 15
float id 16
double id 17
java.lang.String id 18
t.Place id 19
  x: int
t.All id 30 super jdk.jfr.Event
  flag: boolean
  small: byte
  letter: char
  low: short
  count: int
  wide: long
  ratio: float
  exact: double
  none: java.lang.String
  empty: java.lang.String
  told: java.lang.String
  units: java.lang.String
  latin: java.lang.String
  place: t.Place
  numbers: int[]
  places: t.Place[]
  nothing: int[]
  keys: t.Place[] constant
";

const KINDS_JSON: &str =
    r#"{"chunk":1,"name":"boolean","id":10,"super":null,"categories":[],"fields":[]}
{"chunk":1,"name":"byte","id":11,"super":null,"categories":[],"fields":[]}
{"chunk":1,"name":"char","id":12,"super":null,"categories":[],"fields":[]}
{"chunk":1,"name":"short","id":13,"super":null,"categories":[],"fields":[]}
{"chunk":1,"name":"int","id":14,"super":null,"categories":[],"fields":[]}
{"chunk":1,"name":"long","id":15,"super":null,"categories":[],"fields":[]}
{"chunk":1,"name":"float","id":16,"super":null,"categories":[],"fields":[]}
{"chunk":1,"name":"double","id":17,"super":null,"categories":[],"fields":[]}
{"chunk":1,"name":"java.lang.String","id":18,"super":null,"categories":[],"fields":[]}
{"chunk":1,"name":"t.Place","id":19,"super":null,"categories":[],"fields":[{"name":"x","class":"int","class_id":14,"constant":false,"array":false}]}
{"chunk":1,"name":"t.All","id":30,"super":"jdk.jfr.Event","categories":[],"fields":[{"name":"flag","class":"boolean","class_id":10,"constant":false,"array":false},{"name":"small","class":"byte","class_id":11,"constant":false,"array":false},{"name":"letter","class":"char","class_id":12,"constant":false,"array":false},{"name":"low","class":"short","class_id":13,"constant":false,"array":false},{"name":"count","class":"int","class_id":14,"constant":false,"array":false},{"name":"wide","class":"long","class_id":15,"constant":false,"array":false},{"name":"ratio","class":"float","class_id":16,"constant":false,"array":false},{"name":"exact","class":"double","class_id":17,"constant":false,"array":false},{"name":"none","class":"java.lang.String","class_id":18,"constant":false,"array":false},{"name":"empty","class":"java.lang.String","class_id":18,"constant":false,"array":false},{"name":"told","class":"java.lang.String","class_id":18,"constant":false,"array":false},{"name":"units","class":"java.lang.String","class_id":18,"constant":false,"array":false},{"name":"latin","class":"java.lang.String","class_id":18,"constant":false,"array":false},{"name":"place","class":"t.Place","class_id":19,"constant":false,"array":false},{"name":"numbers","class":"int","class_id":14,"constant":false,"array":true},{"name":"places","class":"t.Place","class_id":19,"constant":false,"array":true},{"name":"nothing","class":"int","class_id":14,"constant":false,"array":true},{"name":"keys","class":"t.Place","class_id":19,"constant":true,"array":true}]}
"#;

/// Of the chunk that is like the JDK's, which has classes with one and with two categories.
const OF_JDK_LIKE: &str = "chunk 2
long id 20
int id 21
java.lang.String id 22
boolean id 23
float id 24
jdk.jfr.Category id 25
  value: java.lang.String[]
java.lang.Thread id 30
  osName: java.lang.String
  osThreadId: long
  javaName: java.lang.String
  javaThreadId: long
java.lang.Class id 31
  name: jdk.types.Symbol constant
  modifiers: int
jdk.types.Symbol id 32
  string: java.lang.String
jdk.types.Method id 33
  type: java.lang.Class constant
  name: jdk.types.Symbol constant
  descriptor: jdk.types.Symbol constant
  modifiers: int
  hidden: boolean
jdk.types.StackFrame id 34
  method: jdk.types.Method constant
  lineNumber: int
  bytecodeIndex: int
jdk.types.StackTrace id 35
  truncated: boolean
  frames: jdk.types.StackFrame[]
jdk.ThreadPark id 101 super jdk.jfr.Event
  category \"Java Application\"
  startTime: long
  duration: long
  eventThread: java.lang.Thread constant
  stackTrace: jdk.types.StackTrace constant
  parkedClass: java.lang.Class constant
jdk.JavaMonitorEnter id 102 super jdk.jfr.Event
  category \"Java Application\"
  startTime: long
  duration: long
  eventThread: java.lang.Thread constant
  stackTrace: jdk.types.StackTrace constant
  monitorClass: java.lang.Class constant
jdk.CPULoad id 103 super jdk.jfr.Event
  category \"Operating System\", \"Processor\"
  startTime: long
  machineTotal: float
";

const JDK_LIKE_JSON: &str =
    r#"{"chunk":2,"name":"long","id":20,"super":null,"categories":[],"fields":[]}
{"chunk":2,"name":"int","id":21,"super":null,"categories":[],"fields":[]}
{"chunk":2,"name":"java.lang.String","id":22,"super":null,"categories":[],"fields":[]}
{"chunk":2,"name":"boolean","id":23,"super":null,"categories":[],"fields":[]}
{"chunk":2,"name":"float","id":24,"super":null,"categories":[],"fields":[]}
{"chunk":2,"name":"jdk.jfr.Category","id":25,"super":null,"categories":[],"fields":[{"name":"value","class":"java.lang.String","class_id":22,"constant":false,"array":true}]}
{"chunk":2,"name":"java.lang.Thread","id":30,"super":null,"categories":[],"fields":[{"name":"osName","class":"java.lang.String","class_id":22,"constant":false,"array":false},{"name":"osThreadId","class":"long","class_id":20,"constant":false,"array":false},{"name":"javaName","class":"java.lang.String","class_id":22,"constant":false,"array":false},{"name":"javaThreadId","class":"long","class_id":20,"constant":false,"array":false}]}
{"chunk":2,"name":"java.lang.Class","id":31,"super":null,"categories":[],"fields":[{"name":"name","class":"jdk.types.Symbol","class_id":32,"constant":true,"array":false},{"name":"modifiers","class":"int","class_id":21,"constant":false,"array":false}]}
{"chunk":2,"name":"jdk.types.Symbol","id":32,"super":null,"categories":[],"fields":[{"name":"string","class":"java.lang.String","class_id":22,"constant":false,"array":false}]}
{"chunk":2,"name":"jdk.types.Method","id":33,"super":null,"categories":[],"fields":[{"name":"type","class":"java.lang.Class","class_id":31,"constant":true,"array":false},{"name":"name","class":"jdk.types.Symbol","class_id":32,"constant":true,"array":false},{"name":"descriptor","class":"jdk.types.Symbol","class_id":32,"constant":true,"array":false},{"name":"modifiers","class":"int","class_id":21,"constant":false,"array":false},{"name":"hidden","class":"boolean","class_id":23,"constant":false,"array":false}]}
{"chunk":2,"name":"jdk.types.StackFrame","id":34,"super":null,"categories":[],"fields":[{"name":"method","class":"jdk.types.Method","class_id":33,"constant":true,"array":false},{"name":"lineNumber","class":"int","class_id":21,"constant":false,"array":false},{"name":"bytecodeIndex","class":"int","class_id":21,"constant":false,"array":false}]}
{"chunk":2,"name":"jdk.types.StackTrace","id":35,"super":null,"categories":[],"fields":[{"name":"truncated","class":"boolean","class_id":23,"constant":false,"array":false},{"name":"frames","class":"jdk.types.StackFrame","class_id":34,"constant":false,"array":true}]}
{"chunk":2,"name":"jdk.ThreadPark","id":101,"super":"jdk.jfr.Event","categories":["Java Application"],"fields":[{"name":"startTime","class":"long","class_id":20,"constant":false,"array":false},{"name":"duration","class":"long","class_id":20,"constant":false,"array":false},{"name":"eventThread","class":"java.lang.Thread","class_id":30,"constant":true,"array":false},{"name":"stackTrace","class":"jdk.types.StackTrace","class_id":35,"constant":true,"array":false},{"name":"parkedClass","class":"java.lang.Class","class_id":31,"constant":true,"array":false}]}
{"chunk":2,"name":"jdk.JavaMonitorEnter","id":102,"super":"jdk.jfr.Event","categories":["Java Application"],"fields":[{"name":"startTime","class":"long","class_id":20,"constant":false,"array":false},{"name":"duration","class":"long","class_id":20,"constant":false,"array":false},{"name":"eventThread","class":"java.lang.Thread","class_id":30,"constant":true,"array":false},{"name":"stackTrace","class":"jdk.types.StackTrace","class_id":35,"constant":true,"array":false},{"name":"monitorClass","class":"java.lang.Class","class_id":31,"constant":true,"array":false}]}
{"chunk":2,"name":"jdk.CPULoad","id":103,"super":"jdk.jfr.Event","categories":["Operating System","Processor"],"fields":[{"name":"startTime","class":"long","class_id":20,"constant":false,"array":false},{"name":"machineTotal","class":"float","class_id":24,"constant":false,"array":false}]}
"#;

/// Compares the text of a chunk, and its JSON.
fn compare_text(
    rt: &impl Abort,
    alloc: Global,
    chunk: &Chunk<'_>,
    number: u64,
    (text, json): (&str, &str),
) -> Result<(), Fail> {
    let shown = metadata_text(alloc, chunk, number)?;
    assert_eq!(rt; shown.as_str(), text);
    let lines = metadata_json(alloc, chunk, number)?;
    assert_eq!(rt; lines.as_str(), json);
    Ok(())
}

/// Compares the text of the chunk with these bytes, and its JSON.
fn compare(
    rt: &impl Abort,
    alloc: Global,
    bytes: &[u8],
    number: u64,
    texts: (&str, &str),
) -> Result<(), Fail> {
    with_chunk(alloc, bytes, |chunk| {
        compare_text(rt, alloc, chunk, number, texts)
    })
}

#[test]
fn classes_are_shown(rt: HostRuntime) -> Result<(), Fail> {
    let rings = with_classes(rt.alloc(), RINGS, 333)?;
    compare(&rt, rt.alloc(), &rings, 1, (OF_RINGS, RINGS_JSON))
}

#[test]
fn names_are_escaped_in_json(rt: HostRuntime) -> Result<(), Fail> {
    let rings = oddly_named(rt.alloc())?;
    compare(&rt, rt.alloc(), &rings, 1, (OF_ODD_NAME, ODD_NAME_JSON))
}

#[test]
fn arrays_are_shown(rt: HostRuntime) -> Result<(), Fail> {
    let kinds = kinds(rt.alloc())?;
    compare(&rt, rt.alloc(), &kinds, 1, (OF_KINDS, KINDS_JSON))
}

#[test]
fn categories_are_shown(rt: HostRuntime) -> Result<(), Fail> {
    let chunk = jdk_like(rt.alloc())?;
    compare(&rt, rt.alloc(), &chunk, 2, (OF_JDK_LIKE, JDK_LIKE_JSON))
}

#[test]
fn no_classes_are_no_lines(rt: HostRuntime) -> Result<(), Fail> {
    let inert = inert(rt.alloc())?;
    compare(&rt, rt.alloc(), &inert, 3, ("chunk 3\n", ""))
}
