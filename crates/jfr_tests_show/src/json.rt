//! The lines of JSON of events.
use crate::kinds::{kinds, long_names};
use crate::shown::Form::Json;
use crate::shown::{Shown, compare};
use jfr_fixtures::{RINGS, STRINGS, jdk_like, with_classes};
use std::test::Fail;

/// The events of the chunk of rings.
const RING_A: &str =
    r#"{"type":"t.A","values":{"n":300,"node":{"next":{"class":"t.Node","key":2},"text":"p"}}}
"#;

const RING_B: &str =
    r#"{"type":"t.B","values":{"node":{"next":{"class":"t.Node","key":4},"text":"r"}}}
"#;

const OF_RINGS: [Shown; 2] = [(Json, 0, 1, RING_A), (Json, 1, 1, RING_B)];

#[test]
fn references_are_objects(rt: HostRuntime) -> Result<(), Fail> {
    let bytes = with_classes(rt.alloc(), RINGS, 333)?;
    compare(&rt, rt.alloc(), &bytes, &OF_RINGS)
}

const MISSING: &str =
    r#"{"type":"t.A","values":{"n":300,"node":{"next":{"class":"t.Node","key":0,"missing":true},"text":{"class":"java.lang.String","key":2}}}}
"#;

#[test]
fn missing_constants_are_members(rt: HostRuntime) -> Result<(), Fail> {
    let bytes = with_classes(rt.alloc(), STRINGS, 330)?;
    compare(&rt, rt.alloc(), &bytes, &[(Json, 0, 2, MISSING)])
}

const OF_EACH_KIND: &str =
    "{\"type\":\"t.All\",\"values\":{\"count\":-2147483648,\"empty\":\"\",\"exact\":\"0x3ff0000000000000\",\"flag\":true,\"keys\":[{\"x\":3},{\"class\":\"t.Place\",\"key\":9,\"missing\":true}],\"latin\":\"ä\",\"letter\":65535,\"low\":-1,\"none\":null,\"nothing\":[],\"numbers\":[1,-1],\"place\":{\"x\":7},\"places\":[{\"x\":5}],\"ratio\":\"0x3f800000\",\"small\":-1,\"told\":\"a\\\"\\\\\\n\u{7F}ä\",\"units\":\"b€\",\"wide\":-1}}\n";

#[test]
fn members_are_ordered_by_their_keys(rt: HostRuntime) -> Result<(), Fail> {
    let bytes = kinds(rt.alloc())?;
    compare(&rt, rt.alloc(), &bytes, &[(Json, 0, 1, OF_EACH_KIND)])
}

const LONG_KEYS: &str =
    r#"{"type":"t.Long","values":{"bbbbbbbbbbbbbbbbbbbbbbbbbbbbbbbbbbbbbbbbbbbbbbbbbbbbbbbbbbbbbbbbb":3,"cccccccccccccccccccccccccccccccccccccccccccccccccccccccccccccccc":2,"dddddddddddddddddddddddddddddddddddddddddddddddddddddddddddddddd\"":1}}
"#;

#[test]
fn long_names_are_keys(rt: HostRuntime) -> Result<(), Fail> {
    let bytes = long_names(rt.alloc())?;
    compare(&rt, rt.alloc(), &bytes, &[(Json, 0, 1, LONG_KEYS)])
}

const PARK: &str =
    r#"{"type":"jdk.ThreadPark","values":{"duration":50,"eventThread":{"javaName":"main","javaThreadId":1,"osName":"main","osThreadId":100},"parkedClass":{"modifiers":1,"name":{"class":"jdk.types.Symbol","key":1}},"stackTrace":{"frames":[{"bytecodeIndex":2,"lineNumber":10,"method":{"class":"jdk.types.Method","key":1}}],"truncated":false},"startTime":1000}}
"#;

#[test]
fn a_stack_trace_is_an_object(rt: HostRuntime) -> Result<(), Fail> {
    compare(
        &rt,
        rt.alloc(),
        &jdk_like(rt.alloc())?,
        &[(Json, 0, 1, PARK)],
    )
}
