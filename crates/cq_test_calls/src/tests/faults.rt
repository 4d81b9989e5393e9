//! Each refusal as it is shown by `Display`.
use cq_binder_rules::Fault;
use std::alloc::Global;
use std::test::Fail;

fn is_shown(alloc: Global, fault: &Fault, text: &str) -> Result<bool, Fail> {
    let shown = format!(in alloc; "{fault}")?;
    Ok(shown.as_str() == text)
}

const FAULTS: &[(Fault, &str)] = &[
    (Fault::Memory, "1 out of memory"),
    (Fault::SourceFailed, "3 source failed"),
    (Fault::NotUtf8, "9 script not UTF-8"),
    (Fault::Syntax, "10 syntax"),
    (Fault::UnknownTable, "11 unknown table or view"),
    (Fault::UnknownColumn, "12 unknown column"),
    (Fault::AmbiguousColumn, "13 ambiguous column"),
    (Fault::NameTaken, "14 name taken"),
    (Fault::TypeMismatch, "15 type mismatch"),
    (
        Fault::AggregateMisplaced,
        "16 aggregate misplaced or column not grouped",
    ),
    (Fault::TooWide, "17 expression too wide"),
    (Fault::NumberOutside, "19 number outside 64 bits"),
    (Fault::NullNotAllowed, "20 NULL in a NOT NULL column"),
    (Fault::TableFull, "21 table full"),
    (Fault::TableInUse, "22 table used by a view"),
    (Fault::ViewNotWritten, "23 views are not written"),
    (Fault::TextTooLong, "24 text too long"),
    (Fault::BadDate, "25 bad date"),
    (Fault::SumOutOfRange, "27 sum beyond 128 bits"),
    (Fault::ClauseInView, "28 clause not allowed in a view"),
    (Fault::LimitExceeded, "29 limit exceeded"),
];

#[test]
fn display_agrees_with_the_text(rt: HostRuntime) -> Result<(), Fail> {
    for (fault, text) in FAULTS {
        assert!(rt; is_shown(rt.alloc(), fault, text)?, "{text}");
        assert!(rt; fault.words() == *text, "{text}");
    }
    Ok(())
}

#[test]
fn the_record_stands_behind_the_words(rt: HostRuntime) -> Result<(), Fail> {
    let fault = Fault::BadRecord(70);
    assert!(rt; is_shown(rt.alloc(), &fault, "26 bad CSV record 70")?);
    assert!(rt; fault.words() == "26 bad CSV record ");
    assert!(rt; fault.record() == Some(70));
    Ok(())
}
