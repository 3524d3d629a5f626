//! Integers, read and written.
use jfr_base::{Short, Var, read_var, signed, var_len, write_in, write_var};
use std::process::Abort;

/// The bytes of an integer, and what is read.
type Read = (&'static [u8], Result<Var, Short>);

static READS: [Read; 6] = [
    (&[0xAC, 0x02], Ok(Var { value: 300, end: 2 })),
    (&[0xAC, 0x82, 0x80, 0x00], Ok(Var { value: 300, end: 4 })),
    (
        &[0xFF; 9],
        Ok(Var {
            value: u64::MAX,
            end: 9,
        }),
    ),
    (
        &[0x9C, 0xFF, 0xFF, 0xFF, 0xFF, 0xFF, 0xFF, 0xFF, 0xFF],
        Ok(Var {
            value: u64::MAX - 99,
            end: 9,
        }),
    ),
    (
        &[0x80; 9],
        Ok(Var {
            value: 1 << 63,
            end: 9,
        }),
    ),
    (&[0x80], Err(Short)),
];

/// What is read of the bytes.
fn read_of(bytes: &[u8]) -> Result<Var, Short> {
    read_var(bytes, 0)
}

/// Compares what is read.
fn see_read(rt: &impl Abort, (bytes, read): &Read) {
    assert!(rt; read_of(bytes) == *read, "of {bytes:?}");
}

#[test]
fn integers_are_read(rt: HostRuntime) {
    for read in READS.iter() {
        see_read(&rt, read);
    }
    assert_eq!(rt; signed(u64::MAX), -1);
    assert_eq!(rt; signed(u64::MAX - 99), -100);
}

#[test]
fn integers_are_written(rt: HostRuntime) {
    let mut bytes = [0; 9];
    assert_eq!(rt; write_var(300, &mut bytes), 2);
    assert_eq!(rt; &bytes[..2], [0xAC, 0x02].as_slice());
    assert_eq!(rt; var_len(300), 2);
    write_in(300, 4, &mut bytes);
    assert_eq!(rt; &bytes[..4], [0xAC, 0x82, 0x80, 0x00].as_slice());
}
