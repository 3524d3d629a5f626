//! The names of parts.
use jfr_split::part_name;
use std::alloc::Global;
use std::process::Abort;
use std::test::Fail;

/// A folder, a file, a number, and the name.
struct Row {
    folder: Option<&'static str>,
    file: &'static str,
    number: u64,
    name: &'static str,
}

#[rattlefmt::skip]
static ROWS: [Row; 10] = [
    Row { folder: Some("d"), file: "r.jfr", number: 1, name: "d/r_000001.jfr" },
    Row { folder: None, file: "r.jfr", number: 2, name: "r_000002.jfr" },
    Row { folder: Some("d/"), file: "e/f/r", number: 30, name: "d//r_000030.jfr" },
    Row { folder: None, file: "e/r.jfr/", number: 400, name: "_000400.jfr" },
    Row { folder: None, file: "e.jfr/r.txt", number: 5000, name: "r.txt_005000.jfr" },
    Row { folder: None, file: ".jfr", number: 60000, name: ".jfr_060000.jfr" },
    Row { folder: None, file: "r.jfr.jfr", number: 999_999, name: "r.jfr_999999.jfr" },
    Row { folder: None, file: "rjfr", number: 123_456, name: "rjfr_123456.jfr" },
    Row { folder: None, file: "r.JFR", number: 7, name: "r.JFR_000007.jfr" },
    Row { folder: Some("é"), file: "ü/ö.jfr", number: 8, name: "é/ö_000008.jfr" },
];

/// Compares the name of a part.
fn see_name(rt: &impl Abort, alloc: Global, row: &Row) -> Result<(), Fail> {
    let number = row.number.clamp(1, 999_999);
    let name = part_name(alloc, row.folder, row.file, number)?;
    assert_eq!(rt; name.as_str(), row.name);
    Ok(())
}

#[test]
fn parts_are_named_by_their_rows(rt: HostRuntime) -> Result<(), Fail> {
    for row in ROWS.iter() {
        see_name(&rt, rt.alloc(), row)?;
    }
    Ok(())
}
