//! Which texts name days, and which do not.
use cq_values::{DateFault, date_of};
use std::alloc::Global;
use std::test::Fail;

fn number_of(text: &str) -> Option<i32> {
    match date_of(text) {
        Ok(day) => Some(day.number()),
        Err(_) => None,
    }
}

/// A day, and its number.
const DAYS: &[(&str, i32)] = &[
    ("0001-01-01", -719_162),
    ("1900-02-28", -25_509),
    ("1900-03-01", -25_508),
    ("1969-12-31", -1),
    ("1970-01-01", 0),
    ("2000-02-29", 11_016),
    ("2000-03-01", 11_017),
    ("2023-02-28", 19_416),
    ("2023-03-01", 19_417),
    ("2024-02-29", 19_782),
    ("2024-03-01", 19_783),
    ("9999-12-31", 2_932_896),
];

#[test]
fn ten_characters_name_a_day(rt: HostRuntime) {
    for (text, number) in DAYS {
        assert!(rt; number_of(text) == Some(*number), "{text}");
    }
}

const NO_DAYS: &[&str] = &[
    "",
    "0000-01-01",
    "0000-12-31",
    "1900-02-29",
    "2023-02-29",
    "2024-02-30",
    "2024-04-31",
    "2024-00-01",
    "2024-13-01",
    "2024-01-00",
    "2024-1-01",
    "2024-01-1",
    "20240-1-01",
    "2024/01-01",
    "2024-01/01",
    " 2024-01-01",
    " 024-01-01",
    "+024-01-01",
    "2024-01-011",
    "2024-01-01T",
    "٢24-01-01",
    "٢024-01-01",
];

#[test]
fn other_texts_name_no_day(rt: HostRuntime) {
    for text in NO_DAYS {
        assert!(rt; date_of(text) == Err(DateFault::BadDate), "{text}");
    }
}

fn is_shown(alloc: Global, fault: DateFault, text: &str) -> Result<bool, Fail> {
    let shown = format!(in alloc; "{fault}")?;
    Ok(shown.as_str() == text)
}

#[test]
fn the_fault_has_its_number(rt: HostRuntime) -> Result<(), Fail> {
    assert!(rt; is_shown(rt.alloc(), DateFault::BadDate, "25 bad date")?);
    Ok(())
}
