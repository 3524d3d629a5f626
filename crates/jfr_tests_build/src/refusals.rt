//! Texts that are refused, with the line and the reason.
use jfr_base::Reason;
use jfr_build::{BuildFault, BuildReason, build};

const ROWS: [(&[u8], u64, BuildReason); 32] = [
    (
        b"class 5 long\nevent 8 t.A\nfield n 5 -\nrecord 8 x",
        4,
        BuildReason::ValueBad,
    ),
    (
        b"class 5 long\nevent 8 t.A\nfield n 6 -\nrecord 8 300",
        3,
        BuildReason::Class(Reason::UnknownType),
    ),
    (
        b"class 5 long\nclass 5 long\nconstant 5 1 x",
        2,
        BuildReason::Class(Reason::ClassTwice),
    ),
    (
        b"class 5 long\n\nevent 8 t\nfield n 5 -\nfield n 5 -",
        5,
        BuildReason::Class(Reason::FieldTwice),
    ),
    (
        b"class 5 x\nevent 8 t\nfield n 5 -",
        3,
        BuildReason::Class(Reason::EmptyInline),
    ),
    (
        b"class 5 long\nconstant 5 1 x\nclass 6 y",
        3,
        BuildReason::LineBad,
    ),
    (
        b"class 5 long\nconstant 5 1 1\nfield n 5 -",
        3,
        BuildReason::LineBad,
    ),
    (b"field n 5 -", 1, BuildReason::LineBad),
    (b"class 5  long", 1, BuildReason::LineBad),
    (b"class 5 long ", 1, BuildReason::LineBad),
    (b"class 9223372036854775808 long", 1, BuildReason::LineBad),
    (b"class 5 x\nfoo\nclass \xff y", 2, BuildReason::LineBad),
    (b"class 5 x\nclass 6 \xff", 2, BuildReason::LineBad),
    (b"class 5 long\nconstant 5 1 1 1", 2, BuildReason::ValueBad),
    (b"class 5 long\nconstant 5 1 ", 2, BuildReason::ValueBad),
    (b"class 5 long\nconstant 6 1 1", 2, BuildReason::ValueBad),
    (
        b"class 5 long\nconstant 5 1 9223372036854775808",
        2,
        BuildReason::ValueBad,
    ),
    (
        b"class 5 long\nconstant 5 1 00000000000000000001",
        2,
        BuildReason::ValueBad,
    ),
    (b"event 1 e\nrecord 1", 2, BuildReason::ValueBad),
    (b"event 8 e\nrecord 8 ", 2, BuildReason::ValueBad),
    (
        b"class 5 long\nevent 8 t\nfield a 5 a\nrecord 8 [9223372036854775807 1 2",
        4,
        BuildReason::ValueBad,
    ),
    (
        b"class 6 java.lang.String\nconstant 6 1 \"\\u0041\"",
        2,
        BuildReason::ValueBad,
    ),
    (b"region en 0\nregion en 0", 2, BuildReason::LineBad),
    (b"region en", 1, BuildReason::LineBad),
    (b"region  0", 1, BuildReason::LineBad),
    (b"region en +1", 1, BuildReason::LineBad),
    (b"region en 0 0", 1, BuildReason::LineBad),
    (b"region en -2147483649", 1, BuildReason::ValueBad),
    (
        b"region en 2147483648\nevent 8 e\nrecord 8 x",
        1,
        BuildReason::ValueBad,
    ),
    (
        b"event 8 e\nrecord 8 x\nregion en 9999999999999999999",
        2,
        BuildReason::ValueBad,
    ),
    (
        b"class 5 long\nevent 8 t\nregion en 0\nfield n 5 -\nfield m 6 -",
        5,
        BuildReason::Class(Reason::UnknownType),
    ),
    (
        b"class 5 long\nregion en 2147483648\nevent 8 t\nfield m 6 -",
        4,
        BuildReason::Class(Reason::UnknownType),
    ),
];

#[test]
fn refusals(rt: HostRuntime) {
    for row in ROWS.iter() {
        let (text, line, reason) = *row;
        assert_eq!(rt;
            build(rt.alloc(), text),
            Err(BuildFault::Refused { line, reason })
        );
    }
}

#[test]
fn names(rt: HostRuntime) {
    assert_eq!(rt; BuildReason::TooLarge.number(), 41);
    assert_eq!(rt; BuildReason::TooLarge.name(), "BuildTooLarge");
    assert_eq!(rt; BuildReason::LineBad.number(), 42);
    assert_eq!(rt; BuildReason::ValueBad.number(), 43);
    assert_eq!(rt; BuildReason::Class(Reason::ClassTwice).number(), 20);
    assert_eq!(rt; BuildReason::Class(Reason::ClassTwice).name(), "ClassTwice");
}
