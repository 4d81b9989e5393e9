//! Segments and the write store, at the lengths at which a piece ends.
ghost use Rattle.std.specs.Bool.{OnTrue};
ghost use Rattle.std.specs.Prelude.{IfOk, length, ◌≡◌, ◌≤◌};
ghost use Rattle.cq_encodings_vectors.specs.Places.{AreBelow};
ghost use Rattle.cq_segments_pieces.specs.Columns.{AreWide};
ghost use Rattle.cq_segments_pieces.specs.Rows.{stored_rows};

use super::columns::are_below;
use cq_segments::{ColumnTest, Segment};
use cq_segments_pieces::StoredRow;
use cq_table_columns::Front;
use cq_table_positions::Chosen;
use cq_values::{Comparison, Lent, Row, Value};
use cq_writestore::WriteStore;
use std::alloc::{AllocError, Global};
use std::test::Fail;

/// A row of two numbers, where -1 stands for NULL.
fn pair(alloc: Global, first: i128, second: i128) -> Result<Row, AllocError> {
    let mut row = Row::with_capacity(alloc, 2)?;
    row.push(number(first))?;
    row.push(number(second))?;
    Ok(row)
}

fn number(n: i128) -> Value {
    if n == -1 {
        Value::Null
    } else {
        Value::Number(n)
    }
}

fn pairs(alloc: Global, numbers: &[(i128, i128)]) -> Result<Vec<Row>, AllocError> {
    let mut rows = Vec::new(alloc);
    for (first, second) in numbers {
        rows.push(pair(alloc, *first, *second)?)?;
    }
    Ok(rows)
}

/// So many rows, each of the number of its place twice.
fn counted(alloc: Global, len: usize) -> Result<Vec<Row>, AllocError> {
    let mut rows = Vec::new(alloc);
    for place in 0..len {
        rows.push(pair(alloc, place as i128, place as i128)?)?;
    }
    Ok(rows)
}

fn are_wide(rows: &[Row], width: usize) -> bool
    ensures { OnTrue result (AreWide width rows.now) }
{
    for row in rows {
        if row.len() != width {
            return false;
        }
    }
    true
}

fn lend(alloc: Global, rows: &[Row]) -> Result<Vec<StoredRow<'_>>, AllocError>
    ensures { IfOk result (λ lent. stored_rows lent.items ≡ rows.now) }
{
    let mut lent: Vec<StoredRow<'_>> = Vec::new(alloc);
    for row in rows {
        lent.push(StoredRow::Alone(row))?;
    }
    Ok(lent)
}

/// A segment of these rows of two values, if there are so many of them.
fn built(alloc: Global, rows: &[Row], sort: &[usize]) -> Result<Option<Segment>, AllocError> {
    if rows.is_empty() || rows.len() > 65536 || !are_wide(rows, 2) {
        return Ok(None);
    }
    let lent = lend(alloc, rows)?;
    Ok(Some(Segment::build(alloc, lent.as_slice(), 2, sort)?))
}

/// The number at a place, and -1 where there is none.
fn number_at(segment: &Segment, place: usize, column: usize) -> i128 {
    if place >= segment.len() {
        return -1;
    }
    match segment.lend(place, column) {
        Lent::Number(n) => n,
        _ => -1,
    }
}

/// The numbers of a column, in order.
fn numbers(alloc: Global, segment: &Segment, column: usize) -> Result<Vec<i128>, AllocError> {
    let mut numbers = Vec::new(alloc);
    for place in 0..segment.len() {
        numbers.push(number_at(segment, place, column))?;
    }
    Ok(numbers)
}

/// The numbers of a column at some places, and -1 where there is none.
fn numbers_at(
    alloc: Global,
    segment: &Segment,
    places: &[u16],
    column: usize,
) -> Result<Vec<i128>, AllocError>
    requires few { length places.now ≤ 1024 }
    requires there { AreBelow (length segment.now) places.now }
{
    let values = segment.gather_at(alloc, places, column)?;
    let mut numbers = Vec::new(alloc);
    for i in 0..values.len() {
        let number = match values.lend(i) {
            Lent::Number(n) => n,
            _ => -1,
        };
        numbers.push(number)?;
    }
    Ok(numbers)
}

fn mark(segment: &mut Segment, place: usize) {
    if place < segment.len() {
        segment.mark(place);
    }
}

/// The live rows that readers of the pieces see, and the first number of each piece.
fn seen(alloc: Global, segment: &Segment) -> Result<(usize, Vec<i128>), AllocError> {
    let mut count = 0;
    let mut firsts = Vec::new(alloc);
    for piece in segment.pieces() {
        let front = Front::of_piece(piece);
        let rows = front.rows(alloc)?;
        count = rows.len().saturating_add(count);
        firsts.push(first_of(alloc, &front)?)?;
    }
    Ok((count, firsts))
}

/// The first number of a front by a column, and by chosen rows: -1 where they differ or there is none.
fn first_of(alloc: Global, front: &Front<'_>) -> Result<i128, AllocError> {
    if front.len() == 0 || front.len() > 1024 {
        return Ok(-1);
    }
    let column = front.gather(alloc, 0)?;
    let chosen = Chosen::of(alloc, front, &[0])?;
    let one = chosen.gather(alloc, 1)?;
    match (column.lend(0), one.lend(0)) {
        (Lent::Number(n), Lent::Number(m)) => Ok(if n == m { n } else { -1 }),
        _ => Ok(-1),
    }
}

#[test]
fn equal_rows_stay_as_given_and_null_comes_last(rt: HostRuntime) -> Result<(), Fail> {
    let alloc = rt.alloc();
    let rows = pairs(alloc, &[(3, 0), (-1, 1), (1, 2), (3, 3), (2, -1), (1, 5)])?;
    match built(alloc, rows.as_slice(), &[0])? {
        Some(segment) => {
            let firsts = numbers(alloc, &segment, 0)?;
            let seconds = numbers(alloc, &segment, 1)?;
            assert_eq!(rt; firsts.as_slice(), [1, 1, 2, 3, 3, -1].as_slice());
            assert_eq!(rt; seconds.as_slice(), [2, 5, -1, 0, 3, 1].as_slice());
        }
        None => assert!(rt; false),
    }
    Ok(())
}

#[test]
fn rows_are_sorted_by_one_column_and_then_by_the_next(rt: HostRuntime) -> Result<(), Fail> {
    let alloc = rt.alloc();
    let rows = pairs(alloc, &[(2, 1), (1, -1), (1, 3), (2, 0), (1, 2)])?;
    match built(alloc, rows.as_slice(), &[0, 1])? {
        Some(segment) => {
            let firsts = numbers(alloc, &segment, 0)?;
            let seconds = numbers(alloc, &segment, 1)?;
            assert_eq!(rt; firsts.as_slice(), [1, 1, 1, 2, 2].as_slice());
            assert_eq!(rt; seconds.as_slice(), [2, 3, -1, 0, 1].as_slice());
        }
        None => assert!(rt; false),
    }
    Ok(())
}

#[test]
fn marked_rows_at_the_ends_of_pieces_are_not_seen(rt: HostRuntime) -> Result<(), Fail> {
    let alloc = rt.alloc();
    // how many rows; the first numbers of the pieces once the first row and the last are marked
    let cases = [
        (1023, [1, -1]),
        (1024, [1, -1]),
        (1025, [1, -1]),
        (1026, [1, 1024]),
    ];
    for (len, firsts) in cases {
        assert!(rt; len > 2);
        let rows = counted(alloc, len)?;
        if let Some(mut segment) = built(alloc, rows.as_slice(), &[])? {
            mark(&mut segment, 0);
            mark(&mut segment, len - 1);
            mark(&mut segment, 0);
            let (count, found) = seen(alloc, &segment)?;
            assert_eq!(rt; segment.marked_len(), 2);
            assert_eq!(rt; count, len - 2);
            assert_eq!(rt; found.as_slice(), &firsts[..found.len().min(2)]);
        }
    }
    Ok(())
}

#[test]
fn rows_of_several_pieces_are_read_at_their_places(rt: HostRuntime) -> Result<(), Fail> {
    let alloc = rt.alloc();
    let rows = counted(alloc, 2_050)?;
    match built(alloc, rows.as_slice(), &[])? {
        Some(mut segment) => {
            mark(&mut segment, 1_024);
            let places: &[u16] = &[2_049, 0, 1_023, 1_024, 1_024];
            assert!(rt; are_below(segment.len(), places) && places.len() <= 1_024);
            let found = numbers_at(alloc, &segment, places, 1)?;
            assert_eq!(rt;
                found.as_slice(),
                [2_049, 0, 1_023, 1_024, 1_024].as_slice()
            );
            let none = numbers_at(alloc, &segment, places, 2)?;
            assert_eq!(rt; none.as_slice(), [-1, -1, -1, -1, -1].as_slice());
            assert!(rt; numbers_at(alloc, &segment, &[], 0)?.is_empty());
        }
        None => assert!(rt; false),
    }
    Ok(())
}

#[test]
fn bounds_leave_null_out(rt: HostRuntime) -> Result<(), Fail> {
    let alloc = rt.alloc();
    let rows = pairs(alloc, &[(7, -1), (-1, -1), (4, -1), (9, -1)])?;
    match built(alloc, rows.as_slice(), &[])? {
        Some(segment) => {
            let bounds = segment.bounds(0);
            assert!(rt; bounds.has_null);
            assert!(rt; matches!(bounds.ends, Some((Lent::Number(4), Lent::Number(9)))));
            assert!(rt; segment.bounds(1).ends.is_none());
        }
        None => assert!(rt; false),
    }
    Ok(())
}

/// The rows of 1 to 1,024, each beside NULL.
fn to_1_024(alloc: Global) -> Result<Vec<Row>, AllocError> {
    let mut rows = Vec::new(alloc);
    for place in 0..1_024usize {
        rows.push(pair(alloc, place as i128 + 1, -1)?)?;
    }
    Ok(rows)
}

#[test]
fn a_segment_is_skipped_by_its_bounds(rt: HostRuntime) -> Result<(), Fail> {
    let alloc = rt.alloc();
    // a comparison of the first column with a number, and whether one of 1 to 1,024 passes it
    let cases = [
        (Comparison::Greater, 2_000, false),
        (Comparison::Equal, 0, false),
        (Comparison::GreaterOrEqual, 1_024, true),
        (Comparison::Less, 2, true),
        (Comparison::NotEqual, 5, true),
    ];
    let rows = to_1_024(alloc)?;
    match built(alloc, rows.as_slice(), &[])? {
        Some(mut segment) => {
            mark(&mut segment, 1_023);
            for (comparison, number, may) in cases {
                let test = ColumnTest::Compare(0, comparison, Lent::Number(number));
                assert_eq!(rt; segment.may_match(&test), may, "{number}");
            }
            assert!(rt; !segment.may_match(&ColumnTest::IsNull(0)));
            assert!(rt; segment.may_match(&ColumnTest::IsNotNull(0)));
        }
        None => assert!(rt; false),
    }
    Ok(())
}

#[test]
fn a_column_of_nulls_is_skipped_by_what_asks_for_a_value(rt: HostRuntime) -> Result<(), Fail> {
    let alloc = rt.alloc();
    let rows = pairs(alloc, &[(1, -1), (2, -1)])?;
    match built(alloc, rows.as_slice(), &[])? {
        Some(segment) => {
            let one = ColumnTest::Compare(1, Comparison::Equal, Lent::Number(1));
            assert!(rt; !segment.may_match(&one));
            assert!(rt; segment.may_match(&ColumnTest::IsNull(1)));
            assert!(rt; !segment.may_match(&ColumnTest::IsNotNull(1)));
        }
        None => assert!(rt; false),
    }
    Ok(())
}

#[test]
fn the_front_of_the_write_store_leaves_with_its_marks(rt: HostRuntime) -> Result<(), Fail> {
    let alloc = rt.alloc();
    let mut store = WriteStore::new(alloc);
    store.reserve(3)?;
    store.push_reserved(pair(alloc, 5, 5)?);
    store.push_reserved(pair(alloc, 6, 6)?);
    store.push_reserved(pair(alloc, 7, 7)?);
    if store.len() > 1 {
        store.mark(1);
    }
    store.take_front(1);
    assert_eq!(rt; store.len(), 2);
    assert_eq!(rt; store.marked_len(), 1);
    let (front, rest) = store.rows().tail.split_front();
    let front = Front::of_written(front);
    assert_eq!(rt; front.len(), 1);
    assert_eq!(rt; first_of(alloc, &front)?, 7);
    assert_eq!(rt; rest.len(), 0);
    Ok(())
}
