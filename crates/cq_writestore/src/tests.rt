//! The write store at the lengths at which a piece is full.
ghost use Rattle.std.specs.Bool.{OnTrue};
ghost use Rattle.std.specs.Prelude.{OnOk, ◌++◌};
ghost use Rattle.cq_segments_pieces.specs.Columns.{AreWide};
ghost use Rattle.cq_segments_pieces.specs.Marked.{rows_of};

use crate::store::WriteStore;
use cq_values::{ColumnDef, Lent, Row, Text, Ty, Value};
use cq_writestore_rows::{Filling, NewRows};
use std::alloc::{AllocError, Global};
use std::test::Fail;

/// So many rows, each of the number of its place.
fn counted(alloc: Global, len: usize) -> Result<Vec<Row>, AllocError> {
    let mut rows = Vec::new(alloc);
    for place in 0..len {
        let mut row = Row::with_capacity(alloc, 1)?;
        row.push(Value::Number(place as i128))?;
        rows.push(row)?;
    }
    Ok(rows)
}

/// One column, of numbers.
fn columns(alloc: Global) -> Result<[ColumnDef; 1], AllocError> {
    Ok([ColumnDef {
        name: Text::new(alloc, "n")?,
        ty: Ty::Integer,
        not_null: true,
    }])
}

/// So many rows as a file brings them, in pieces where there are enough, each of the number of its place.
fn filled(alloc: Global, len: usize) -> Result<NewRows, Fail> {
    let mut filling = Filling::new(alloc, &columns(alloc)?)?;
    for place in 0..len {
        filling.push(&Lent::Number(place as i128))?;
        filling.end_row()?;
    }
    Ok(filling.finish()?)
}

fn are_wide(rows: &[Row], width: usize) -> bool
    ensures { OnTrue result (AreWide width rows.now) }
{
    for row in rows {
        if row.len() != width {
            return false;
        }
    }
    true
}

/// The number in the row at a place, and -1 where there is none.
fn number_at(store: &WriteStore, place: usize) -> i128 {
    if place < store.len() {
        match store.rows().at(place).lend(0) {
            Lent::Number(number) => return number,
            _ => {}
        }
    }
    -1
}

#[test]
fn rows_stand_in_pieces_as_soon_as_one_is_full(rt: HostRuntime) -> Result<(), Fail> {
    let alloc = rt.alloc();
    // how many rows are added and dropped; how many pieces are left, and how many rows behind them
    let cases = [
        (1023, 0, 0, 1023),
        (1024, 0, 1, 0),
        (2500, 0, 2, 452),
        (2500, 1000, 2, 452),
        (2500, 1024, 1, 452),
        (2500, 2100, 0, 400),
        (2500, 2600, 0, 0),
    ];
    for (added, gone, pieces, tail) in cases {
        let mut store = WriteStore::new(alloc);
        let rows = counted(alloc, added)?;
        assert!(rt; are_wide(rows.as_slice(), 1));
        store.append(alloc, NewRows::of(rows), &columns(alloc)?)?;
        store.take_front(gone);
        assert_eq!(rt;
            store.rows().pieces.len(),
            pieces,
            "of {added} without {gone}"
        );
        assert_eq!(rt; store.rows().tail.len(), tail, "of {added} without {gone}");
    }
    Ok(())
}

/// Puts rows of one number behind those of the store.
fn add(alloc: Global, store: &mut WriteStore, rows: NewRows) -> Result<(), AllocError>
    requires { AreWide 1 (rows_of store.old.rows) }
    ensures { OnOk result (AreWide 1 (rows_of store.new.rows)) }
{
    let columns = columns(alloc)?;
    let copies = rows.copies(alloc)?;
    if are_wide(copies.as_slice(), 1) {
        store.append(alloc, rows, &columns)?;
    }
    Ok(())
}

#[test]
fn rows_of_several_calls_fill_a_piece(rt: HostRuntime) -> Result<(), Fail> {
    let alloc = rt.alloc();
    let mut store = WriteStore::new(alloc);
    add(alloc, &mut store, NewRows::of(counted(alloc, 1000)?))?;
    assert_eq!(rt; store.rows().pieces.len(), 0);
    add(alloc, &mut store, NewRows::of(counted(alloc, 1000)?))?;
    assert_eq!(rt; store.rows().pieces.len(), 1);
    assert_eq!(rt; store.rows().tail.len(), 976);
    assert_eq!(rt; number_at(&store, 1023), 23);
    assert_eq!(rt; number_at(&store, 1024), 24);
    match store.rows().pieces.first() {
        Some(piece) => assert!(rt; piece.is_whole()),
        None => assert!(rt; false),
    }
    Ok(())
}

#[test]
fn a_row_is_found_behind_a_front_that_is_cut(rt: HostRuntime) -> Result<(), Fail> {
    let alloc = rt.alloc();
    let mut store = WriteStore::new(alloc);
    let rows = counted(alloc, 2500)?;
    assert!(rt; are_wide(rows.as_slice(), 1));
    store.append(alloc, NewRows::of(rows), &columns(alloc)?)?;
    store.take_front(1000);
    // a place, and the number that stands there
    let cases = [
        (0, 1000),
        (23, 1023),
        (24, 1024),
        (1047, 2047),
        (1048, 2048),
        (1499, 2499),
        (1500, -1),
    ];
    for (place, number) in cases {
        assert_eq!(rt; number_at(&store, place), number, "at {place}");
    }
    Ok(())
}

/// Whether so many rows have the numbers from 0 on, behind those that come before this place.
fn rise_from(store: &WriteStore, from: usize, count: usize) -> bool {
    for place in 0..count {
        match from.checked_add(place) {
            Some(at) => if number_at(store, at) != place as i128 {
                return false;
            },
            None => return false,
        }
    }
    true
}

/// Marks the row at a place, if there is one.
fn mark_at(store: &mut WriteStore, place: usize)
    requires { AreWide 1 (rows_of store.old.rows) }
    ensures { AreWide 1 (rows_of store.new.rows) }
{
    if place < store.len() {
        store.mark(place);
    }
}

/// Whether the row at a place has a mark, where each piece is whole.
fn is_marked(store: &WriteStore, place: usize) -> bool {
    let rows = store.rows();
    match rows.pieces.get(place / 1024) {
        Some(piece) => place % 1024 < piece.len() && piece.is_marked(place % 1024),
        None => rows.tail.is_marked(place % 1024),
    }
}

#[test]
fn rows_of_a_file_stand_behind_the_older_ones(rt: HostRuntime) -> Result<(), Fail> {
    let alloc = rt.alloc();
    // how many rows are there, which of them has a mark, and how many come; how many pieces there are then, and how many
    // rows behind them
    let cases = [
        (0, 0, 1024, 1, 0),
        (0, 0, 2500, 2, 452),
        (1, 0, 1024, 1, 1),
        (1024, 1000, 1500, 2, 476),
        (1000, 7, 1500, 2, 452),
        (1000, 999, 2000, 2, 952),
    ];
    for (older, marked, come, pieces, tail) in cases {
        let mut store = WriteStore::new(alloc);
        add(alloc, &mut store, NewRows::of(counted(alloc, older)?))?;
        mark_at(&mut store, marked);
        add(alloc, &mut store, filled(alloc, come)?)?;
        assert_eq!(rt; store.rows().pieces.len(), pieces, "{come} behind {older}");
        assert_eq!(rt; store.rows().tail.len(), tail, "{come} behind {older}");
        assert!(rt; rise_from(&store, 0, older));
        assert!(rt; rise_from(&store, older, come));
        assert_eq!(rt; store.marked_len(), older.min(1), "{come} behind {older}");
        assert_eq!(rt;
            is_marked(&store, marked),
            marked < older,
            "{come} behind {older}"
        );
    }
    Ok(())
}
