//! A filling at the lengths at which a piece is full.
ghost use Rattle.std.specs.Prelude.{IfOk, OnOk, [], length, ◌≡◌};
ghost use Rattle.cq_writestore_rows.specs.Filling.{IsReadyFor};

use crate::filling::Filling;
use crate::new_rows::NewRows;
use cq_values::{ColumnDef, Day, Lent, Row, Text, Ty, cmp_lent};
use std::alloc::{AllocError, Global};
use std::test::Fail;

fn column(alloc: Global, ty: Ty) -> Result<ColumnDef, AllocError> {
    let name = Text::new(alloc, "a")?;
    Ok(ColumnDef {
        name,
        ty,
        not_null: false,
    })
}

/// A column of each type.
fn columns(alloc: Global) -> Result<Vec<ColumnDef>, AllocError>
    ensures { IfOk result (λ columns. length columns.items ≡ 3) }
{
    let mut columns = Vec::new(alloc);
    columns.push(column(alloc, Ty::Integer)?)?;
    columns.push(column(alloc, Ty::Text)?)?;
    columns.push(column(alloc, Ty::Date)?)?;
    Ok(columns)
}

fn number_in<'a>(place: usize) -> Lent<'a> {
    if place % 7 == 0 {
        Lent::Null
    } else {
        Lent::Number(place as i128)
    }
}

fn text_in<'a>(place: usize) -> Lent<'a> {
    match place % 3 {
        0 => Lent::Null,
        1 => Lent::Text("one"),
        _ => Lent::Text(""),
    }
}

fn day_in<'a>(place: usize) -> Lent<'a> {
    match Day::new((place % 1000) as i32) {
        Some(day) => Lent::Day(day),
        None => Lent::Null,
    }
}

/// Puts the row of a place behind the others.
fn put_row(filling: &mut Filling, place: usize) -> Result<(), AllocError>
    requires { IsReadyFor 3 filling.old }
    ensures { OnOk result (IsReadyFor 3 filling.new) }
{
    filling.push(&number_in(place))?;
    filling.push(&text_in(place))?;
    filling.push(&day_in(place))?;
    filling.end_row()
}

fn filled(alloc: Global, len: usize) -> Result<NewRows, AllocError> {
    let columns = columns(alloc)?;
    let mut filling = Filling::new(alloc, columns.as_slice())?;
    for place in 0..len {
        put_row(&mut filling, place)?;
    }
    filling.finish()
}

/// How many rows are not those of their places.
fn strangers(rows: &[Row]) -> usize {
    let mut count = 0usize;
    for (place, row) in rows.iter().enumerate() {
        let is_right = cmp_lent(&row.lend(0), &number_in(place)).is_eq()
            && cmp_lent(&row.lend(1), &text_in(place)).is_eq()
            && cmp_lent(&row.lend(2), &day_in(place)).is_eq();
        if !is_right {
            count = count.saturating_add(1);
        }
    }
    count
}

#[test]
fn rows_stand_in_their_order_in_pieces_and_behind_them(rt: HostRuntime) -> Result<(), Fail> {
    // how many rows there are; how many pieces, and how many rows behind them
    let cases = [(1023, 0, 1023), (1024, 1, 0), (1025, 1, 1), (2500, 2, 452)];
    for (len, pieces, behind) in cases {
        let rows = filled(rt.alloc(), len)?;
        assert_eq!(rt; rows.len(), len);
        let copies = rows.copies(rt.alloc())?;
        assert_eq!(rt; strangers(copies.as_slice()), 0, "of {len} rows");
        let (made, tail) = rows.into_parts();
        assert_eq!(rt; made.len(), pieces, "of {len} rows");
        assert_eq!(rt; tail.len(), behind, "of {len} rows");
    }
    Ok(())
}

#[test]
fn many_rows_are_copied_into_columns(rt: HostRuntime) -> Result<(), Fail> {
    // how many rows there are; how many pieces their copies have, and how many rows behind them
    let cases = [(1023, 0, 1023), (1024, 1, 0), (1025, 1, 1)];
    let columns = columns(rt.alloc())?;
    for (len, pieces, behind) in cases {
        let rows = NewRows::of(filled(rt.alloc(), len)?.into_rows(rt.alloc())?);
        let shared = rows.share_in(rt.alloc(), columns.as_slice())?;
        let copies = shared.copies(rt.alloc())?;
        assert_eq!(rt; strangers(copies.as_slice()), 0, "of {len} rows");
        let (made, tail) = shared.into_parts();
        assert_eq!(rt; made.len(), pieces, "of {len} rows");
        assert_eq!(rt; tail.len(), behind, "of {len} rows");
    }
    Ok(())
}

#[test]
fn rows_of_another_width_stay_rows(rt: HostRuntime) -> Result<(), Fail> {
    let columns = columns(rt.alloc())?;
    let rows = NewRows::of(filled(rt.alloc(), 1024)?.into_rows(rt.alloc())?);
    let same = rows.in_columns(rt.alloc(), &columns[..2])?;
    let (made, tail) = same.into_parts();
    assert_eq!(rt; made.len(), 0);
    assert_eq!(rt; strangers(tail.as_slice()), 0);
    Ok(())
}
