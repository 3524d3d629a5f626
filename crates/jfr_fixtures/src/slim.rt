//! What scrubbing leaves of the metadata record `CLASSES` when event classes have no events: each text once,
// in order of first use, and a size of five bytes.

/// The classes without `t.B`.
#[rattlefmt::skip]
pub const CLASSES_OF_A: &[u8] = &[
    0xEA, 0x81, 0x80, 0x80, 0, 0, 0, 0, 1, 22, // 234 bytes, a metadata record with 22 texts
    3, 4, b'r', b'o', b'o', b't',
    3, 8, b'm', b'e', b't', b'a', b'd', b'a', b't', b'a',
    3, 5, b'c', b'l', b'a', b's', b's',
    3, 4, b'n', b'a', b'm', b'e',
    3, 4, b'l', b'o', b'n', b'g',
    3, 2, b'i', b'd',
    3, 1, b'5',
    3, 16, b'j', b'a', b'v', b'a', b'.', b'l', b'a', b'n', b'g', b'.', b'S', b't', b'r', b'i', b'n', b'g',
    3, 1, b'6',
    3, 6, b't', b'.', b'N', b'o', b'd', b'e',
    3, 1, b'7',
    3, 5, b'f', b'i', b'e', b'l', b'd',
    3, 4, b'n', b'e', b'x', b't',
    3, 12, b'c', b'o', b'n', b's', b't', b'a', b'n', b't', b'P', b'o', b'o', b'l',
    3, 4, b't', b'r', b'u', b'e',
    3, 4, b't', b'e', b'x', b't',
    3, 3, b't', b'.', b'A',
    3, 1, b'8',
    3, 9, b's', b'u', b'p', b'e', b'r', b'T', b'y', b'p', b'e',
    3, 13, b'j', b'd', b'k', b'.', b'j', b'f', b'r', b'.', b'E', b'v', b'e', b'n', b't',
    3, 1, b'n',
    3, 4, b'n', b'o', b'd', b'e',
    0, 0, 1,                                 // root
    1, 0, 4,                                 //   metadata
    2, 2, 3, 4, 5, 6, 0,                     //     class name=long id=5
    2, 2, 3, 7, 5, 8, 0,                     //     class name=java.lang.String id=6
    2, 2, 3, 9, 5, 10, 2,                    //     class name=t.Node id=7
    11, 3, 3, 12, 2, 10, 13, 14, 0,          //       field name=next class=7 constantPool=true
    11, 2, 3, 15, 2, 8, 0,                   //       field name=text class=6
    2, 3, 3, 16, 5, 17, 18, 19, 2,           //     class name=t.A id=8 superType=jdk.jfr.Event
    11, 2, 3, 20, 2, 6, 0,                   //       field name=n class=5
    11, 3, 3, 21, 2, 10, 13, 14, 0,          //       field name=node class=7 constantPool=true
];

/// The classes without `t.A`.
#[rattlefmt::skip]
pub const CLASSES_OF_B: &[u8] = &[
    0xE0, 0x81, 0x80, 0x80, 0, 0, 0, 0, 1, 21, // 224 bytes, a metadata record with 21 texts
    3, 4, b'r', b'o', b'o', b't',
    3, 8, b'm', b'e', b't', b'a', b'd', b'a', b't', b'a',
    3, 5, b'c', b'l', b'a', b's', b's',
    3, 4, b'n', b'a', b'm', b'e',
    3, 4, b'l', b'o', b'n', b'g',
    3, 2, b'i', b'd',
    3, 1, b'5',
    3, 16, b'j', b'a', b'v', b'a', b'.', b'l', b'a', b'n', b'g', b'.', b'S', b't', b'r', b'i', b'n', b'g',
    3, 1, b'6',
    3, 6, b't', b'.', b'N', b'o', b'd', b'e',
    3, 1, b'7',
    3, 5, b'f', b'i', b'e', b'l', b'd',
    3, 4, b'n', b'e', b'x', b't',
    3, 12, b'c', b'o', b'n', b's', b't', b'a', b'n', b't', b'P', b'o', b'o', b'l',
    3, 4, b't', b'r', b'u', b'e',
    3, 4, b't', b'e', b'x', b't',
    3, 3, b't', b'.', b'B',
    3, 1, b'9',
    3, 9, b's', b'u', b'p', b'e', b'r', b'T', b'y', b'p', b'e',
    3, 13, b'j', b'd', b'k', b'.', b'j', b'f', b'r', b'.', b'E', b'v', b'e', b'n', b't',
    3, 4, b'n', b'o', b'd', b'e',
    0, 0, 1,                                 // root
    1, 0, 4,                                 //   metadata
    2, 2, 3, 4, 5, 6, 0,                     //     class name=long id=5
    2, 2, 3, 7, 5, 8, 0,                     //     class name=java.lang.String id=6
    2, 2, 3, 9, 5, 10, 2,                    //     class name=t.Node id=7
    11, 3, 3, 12, 2, 10, 13, 14, 0,          //       field name=next class=7 constantPool=true
    11, 2, 3, 15, 2, 8, 0,                   //       field name=text class=6
    2, 3, 3, 16, 5, 17, 18, 19, 1,           //     class name=t.B id=9 superType=jdk.jfr.Event
    11, 3, 3, 20, 2, 10, 13, 14, 0,          //       field name=node class=7 constantPool=true
];

/// The classes without `t.A` and `t.B`.
#[rattlefmt::skip]
pub const NO_EVENT_CLASSES: &[u8] = &[
    0xA6, 0x81, 0x80, 0x80, 0, 0, 0, 0, 1, 16, // 166 bytes, a metadata record with 16 texts
    3, 4, b'r', b'o', b'o', b't',
    3, 8, b'm', b'e', b't', b'a', b'd', b'a', b't', b'a',
    3, 5, b'c', b'l', b'a', b's', b's',
    3, 4, b'n', b'a', b'm', b'e',
    3, 4, b'l', b'o', b'n', b'g',
    3, 2, b'i', b'd',
    3, 1, b'5',
    3, 16, b'j', b'a', b'v', b'a', b'.', b'l', b'a', b'n', b'g', b'.', b'S', b't', b'r', b'i', b'n', b'g',
    3, 1, b'6',
    3, 6, b't', b'.', b'N', b'o', b'd', b'e',
    3, 1, b'7',
    3, 5, b'f', b'i', b'e', b'l', b'd',
    3, 4, b'n', b'e', b'x', b't',
    3, 12, b'c', b'o', b'n', b's', b't', b'a', b'n', b't', b'P', b'o', b'o', b'l',
    3, 4, b't', b'r', b'u', b'e',
    3, 4, b't', b'e', b'x', b't',
    0, 0, 1,                                 // root
    1, 0, 3,                                 //   metadata
    2, 2, 3, 4, 5, 6, 0,                     //     class name=long id=5
    2, 2, 3, 7, 5, 8, 0,                     //     class name=java.lang.String id=6
    2, 2, 3, 9, 5, 10, 2,                    //     class name=t.Node id=7
    11, 3, 3, 12, 2, 10, 13, 14, 0,          //       field name=next class=7 constantPool=true
    11, 2, 3, 15, 2, 8, 0,                   //       field name=text class=6
];
