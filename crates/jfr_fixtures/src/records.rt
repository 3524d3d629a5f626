//! Records of chunks. Those of events and nodes follow the record of the classes, from 325 on.

/// A metadata record without classes.
#[rattlefmt::skip]
pub const NO_CLASSES: &[u8] = &[
    28, 0, 0, 0, 1, 2, // 28 bytes, a metadata record with 2 texts
    3, 4, b'r', b'o', b'o', b't',
    3, 8, b'm', b'e', b't', b'a', b'd', b'a', b't', b'a',
    0, 0, 1,           // root
    1, 0, 0,           //   metadata
];

/// A metadata record with the classes `long` (5), `java.lang.String` (6), `t.Node` (7) with the fields
/// `next`, a reference to its own class, and `text`, and the event classes `t.A` (8) with `n`, a `long`, and
/// `node`, a reference, and `t.B` (9) with `node`.
#[rattlefmt::skip]
pub const CLASSES: &[u8] = &[
    0x81, 2, 0, 0, 0, 1, 24,      // 257 bytes, a metadata record with 24 texts
    3, 4, b'r', b'o', b'o', b't',
    3, 8, b'm', b'e', b't', b'a', b'd', b'a', b't', b'a',
    3, 5, b'c', b'l', b'a', b's', b's',
    3, 4, b'n', b'a', b'm', b'e',
    3, 2, b'i', b'd',
    3, 9, b's', b'u', b'p', b'e', b'r', b'T', b'y', b'p', b'e',
    3, 5, b'f', b'i', b'e', b'l', b'd',
    3, 12, b'c', b'o', b'n', b's', b't', b'a', b'n', b't', b'P', b'o', b'o', b'l',
    3, 4, b't', b'r', b'u', b'e',
    3, 4, b'l', b'o', b'n', b'g',
    3, 16, b'j', b'a', b'v', b'a', b'.', b'l', b'a', b'n', b'g', b'.', b'S', b't', b'r', b'i', b'n', b'g',
    3, 6, b't', b'.', b'N', b'o', b'd', b'e',
    3, 3, b't', b'.', b'A',
    3, 3, b't', b'.', b'B',
    3, 13, b'j', b'd', b'k', b'.', b'j', b'f', b'r', b'.', b'E', b'v', b'e', b'n', b't',
    3, 1, b'5',
    3, 1, b'6',
    3, 1, b'7',
    3, 1, b'8',
    3, 1, b'9',
    3, 4, b'n', b'e', b'x', b't',
    3, 4, b't', b'e', b'x', b't',
    3, 1, b'n',
    3, 4, b'n', b'o', b'd', b'e',
    0, 0, 1,                      // root
    1, 0, 5,                      //   metadata
    2, 2, 3, 9, 4, 15, 0,         //     class name=long id=5
    2, 2, 3, 10, 4, 16, 0,        //     class name=java.lang.String id=6
    2, 2, 3, 11, 4, 17, 2,        //     class name=t.Node id=7
    6, 3, 3, 20, 2, 17, 7, 8, 0,  //       field name=next class=7 constantPool=true
    6, 2, 3, 21, 2, 16, 0,        //       field name=text class=6
    2, 3, 3, 12, 4, 18, 5, 14, 2, //     class name=t.A id=8 superType=jdk.jfr.Event
    6, 2, 3, 22, 2, 15, 0,        //       field name=n class=5
    6, 3, 3, 23, 2, 17, 7, 8, 0,  //       field name=node class=7 constantPool=true
    2, 3, 3, 13, 4, 19, 5, 14, 1, //     class name=t.B id=9 superType=jdk.jfr.Event
    6, 3, 3, 23, 2, 17, 7, 8, 0,  //       field name=node class=7 constantPool=true
];

/// A checkpoint without pools.
pub const NO_POOLS: &[u8] = &[7, 1, 0, 0, 0, 0, 0];

/// A record whose type is no class.
pub const UNKNOWN: &[u8] = &[3, 0x63, 0xAA];

/// A `t.A` with the number 300 and the node 1, a `t.B` with the node 3, and a checkpoint with the nodes 1 and
/// 2 in a ring, and 3 and 4 in another.
#[rattlefmt::skip]
pub const RINGS: &[u8] = &[
    5, 8, 0xAC, 2, 1,     // t.A: 300, node 1
    3, 9, 3,              // t.B: node 3
    29, 1, 0, 0, 0, 0, 1, // a checkpoint of 29 bytes, one pool
    7, 4,                 // 4 of t.Node
    1, 2, 3, 1, 0x70,     // 1: next 2, p
    2, 1, 3, 1, 0x71,     // 2: next 1, q
    3, 4, 3, 1, 0x72,     // 3: next 4, r
    4, 3, 3, 1, 0x73,     // 4: next 3, s
];

/// As `RINGS`, with a byte after the last field of the second event.
#[rattlefmt::skip]
pub const BYTES_LEFT: &[u8] = &[
    5, 8, 0xAC, 2, 1,     // t.A: 300, node 1
    4, 9, 3, 0xFF,        // t.B: node 3 and a byte more
    29, 1, 0, 0, 0, 0, 1, // a checkpoint of 29 bytes, one pool
    7, 4,                 // 4 of t.Node
    1, 2, 3, 1, 0x70,     // 1: next 2, p
    2, 1, 3, 1, 0x71,     // 2: next 1, q
    3, 4, 3, 1, 0x72,     // 3: next 4, r
    4, 3, 3, 1, 0x73,     // 4: next 3, s
];

/// As `RINGS`, but with a checkpoint without pools.
#[rattlefmt::skip]
pub const NO_NODES: &[u8] = &[
    5, 8, 0xAC, 2, 1,    // t.A: 300, node 1
    3, 9, 3,             // t.B: node 3
    7, 1, 0, 0, 0, 0, 0, // a checkpoint of 7 bytes, without pools
];

/// The key 1 in two checkpoints. The last entry is in force.
#[rattlefmt::skip]
pub const TWICE: &[u8] = &[
    14, 1, 0, 0, 0, 0, 1,                                    // a checkpoint of 14 bytes, one pool
    7, 1,                                                    // 1 of t.Node
    1, 0, 3, 1, 0x70,                                        // 1: next 0, p
    5, 8, 0xAC, 2, 1,                                        // t.A: 300, node 1
    22, 1, 0, 0,                                             // a checkpoint of 22 bytes
    0xED, 0xFF, 0xFF, 0xFF, 0xFF, 0xFF, 0xFF, 0xFF, 0xFF, 0, 1, // 19 bytes after the one before; one pool
    7, 1,                                                    // 1 of t.Node
    1, 0, 3, 1, 0x71,                                        // 1: next 0, q
];

/// What scrubbing leaves of these records.
#[rattlefmt::skip]
pub const TWICE_SCRUBBED: &[u8] = &[
    7, 1, 0, 0, 0, 0, 0,                                     // a checkpoint of 7 bytes, without pools
    5, 8, 0xAC, 2, 1,                                        // t.A: 300, node 1
    22, 1, 0, 0,                                             // a checkpoint of 22 bytes
    0xF4, 0xFF, 0xFF, 0xFF, 0xFF, 0xFF, 0xFF, 0xFF, 0xFF, 0, 1, // 12 bytes after the one before; one pool
    7, 1,                                                    // 1 of t.Node
    1, 0, 3, 1, 0x71,                                        // 1: next 0, q
];

/// Three checkpoints, of which the second has an entry that nothing reaches.
#[rattlefmt::skip]
pub const THREE: &[u8] = &[
    14, 1, 0, 0, 0, 0, 1,                                    // a checkpoint of 14 bytes, one pool
    7, 1,                                                    // 1 of t.Node
    1, 0, 3, 1, 0x70,                                        // 1: next 0, p
    22, 1, 0, 0,                                             // a checkpoint of 22 bytes
    0xF2, 0xFF, 0xFF, 0xFF, 0xFF, 0xFF, 0xFF, 0xFF, 0xFF, 0, 1, // 14 bytes after the one before; one pool
    7, 1,                                                    // 1 of t.Node
    3, 0, 3, 1, 0x72,                                        // 3: next 0, r
    5, 8, 0xAC, 2, 1,                                        // t.A: 300, node 1
    15, 1, 0, 0,                                             // a checkpoint of 15 bytes
    0xE5, 0xFF, 0xFF, 0xFF, 0xFF, 0xFF, 0xFF, 0xFF, 0xFF, 0, 0, // 27 bytes after the one before; without pools
];

/// What scrubbing leaves of these records.
#[rattlefmt::skip]
pub const THREE_SCRUBBED: &[u8] = &[
    14, 1, 0, 0, 0, 0, 1,                                    // a checkpoint of 14 bytes, one pool
    7, 1,                                                    // 1 of t.Node
    1, 0, 3, 1, 0x70,                                        // 1: next 0, p
    15, 1, 0, 0,                                             // a checkpoint of 15 bytes
    0xF2, 0xFF, 0xFF, 0xFF, 0xFF, 0xFF, 0xFF, 0xFF, 0xFF, 0, 0, // 14 bytes after the one before; without pools
    5, 8, 0xAC, 2, 1,                                        // t.A: 300, node 1
    15, 1, 0, 0,                                             // a checkpoint of 15 bytes
    0xEC, 0xFF, 0xFF, 0xFF, 0xFF, 0xFF, 0xFF, 0xFF, 0xFF, 0, 0, // 20 bytes after the one before; without pools
];

/// Strings that are keys: string 1 is the key 2, and string 2 is the key 2 itself; nothing refers to string
/// 3.
#[rattlefmt::skip]
pub const STRINGS: &[u8] = &[
    5, 8, 0xAC, 2, 1,     // t.A: 300, node 1
    25, 1, 0, 0, 0, 0, 2, // a checkpoint of 25 bytes, 2 pools
    7, 1,                 // 1 of t.Node
    1, 0, 2, 1,           // 1: next 0, text 1
    6, 3,                 // 3 of java.lang.String
    1, 2, 2,              // 1: text 2
    2, 2, 2,              // 2: text 2
    3, 3, 1, 0x78,        // 3: x
];

/// What scrubbing leaves of these records.
#[rattlefmt::skip]
pub const STRINGS_SCRUBBED: &[u8] = &[
    5, 8, 0xAC, 2, 1,     // t.A: 300, node 1
    21, 1, 0, 0, 0, 0, 2, // a checkpoint of 21 bytes, 2 pools
    7, 1,                 // 1 of t.Node
    1, 0, 2, 1,           // 1: next 0, text 1
    6, 2,                 // 2 of java.lang.String
    1, 2, 2,              // 1: text 2
    2, 2, 2,              // 2: text 2
];

/// Two events of different classes, with nodes whose texts are the strings with keys 1 and 3. String 1 is the
/// key 2, which is its own key; string 3 is the key 4, whose text is x.
#[rattlefmt::skip]
pub const KEYS: &[u8] = &[
    5, 8, 0xAC, 2, 1,       // t.A: 300, node 1
    3, 9, 3,                // t.B: node 3
    0x20, 1, 0, 0, 0, 0, 2, // a checkpoint of 32 bytes, 2 pools
    7, 2,                   // 2 of t.Node
    1, 0, 2, 1,             // 1: next 0, text 1
    3, 0, 2, 3,             // 3: next 0, text 3
    6, 4,                   // 4 of java.lang.String
    1, 2, 2,                // 1: text 2
    2, 2, 2,                // 2: text 2
    3, 2, 4,                // 3: text 4
    4, 3, 1, 0x78,          // 4: x
];

/// The key 1 in two checkpoints. The size of the first takes nine bytes.
#[rattlefmt::skip]
pub const WIDE: &[u8] = &[
    0x96, 0x80, 0x80, 0x80, 0x80, 0x80, 0x80, 0x80, 0, 1, 0, 0, 0, 0, 1, // a checkpoint of 22 bytes, one pool
    7, 1,                                                    // 1 of t.Node
    1, 0, 3, 1, 0x70,                                        // 1: next 0, p
    5, 8, 0xAC, 2, 1,                                        // t.A: 300, node 1
    22, 1, 0, 0,                                             // a checkpoint of 22 bytes
    0xE5, 0xFF, 0xFF, 0xFF, 0xFF, 0xFF, 0xFF, 0xFF, 0xFF, 0, 1, // 27 bytes after the one before; one pool
    7, 1,                                                    // 1 of t.Node
    1, 0, 3, 1, 0x71,                                        // 1: next 0, q
];

/// What scrubbing leaves of these records.
#[rattlefmt::skip]
pub const WIDE_SCRUBBED: &[u8] = &[
    0x8F, 0x80, 0x80, 0x80, 0x80, 0x80, 0x80, 0x80, 0, 1, 0, 0, 0, 0, 0, // a checkpoint of 15 bytes, without pools
    5, 8, 0xAC, 2, 1,                                        // t.A: 300, node 1
    22, 1, 0, 0,                                             // a checkpoint of 22 bytes
    0xEC, 0xFF, 0xFF, 0xFF, 0xFF, 0xFF, 0xFF, 0xFF, 0xFF, 0, 1, // 20 bytes after the one before; one pool
    7, 1,                                                    // 1 of t.Node
    1, 0, 3, 1, 0x71,                                        // 1: next 0, q
];
