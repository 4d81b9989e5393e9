//! Rows that are lent.
ghost use Rattle.std.specs.Prelude.{◌≡◌, IfOk, OnOk};
ghost use Rattle.cq_operators_conditions.specs.Lent.{LendsFront};
ghost use Rattle.cq_segments_pieces.specs.Rows.{stored_rows};
ghost use Rattle.cq_table_columns.specs.Stored.{all_rows};

use cq_segments_pieces::StoredRow;
use cq_table_columns::{Front, Stored};
use std::alloc::{AllocError, Global};

/// All rows, where they are.
pub(crate) fn lend_all<'a>(
    alloc: Global,
    rows: &Stored<'a>,
) -> Result<Vec<StoredRow<'a>>, AllocError>
    ensures { IfOk result (λ lent. stored_rows lent.items ≡ all_rows rows.now) }
{
    let mut lent: Vec<StoredRow<'a>> = Vec::new(alloc);
    lent.reserve(rows.len())?;
    let mut left = *rows;
    while !left.is_empty() {
        let (front, rest) = left.split_front();
        lend_front(&front, &mut lent)?;
        left = rest;
    }
    Ok(lent)
}

fn lend_front<'a>(front: &Front<'a>, lent: &mut Vec<StoredRow<'a>>) -> Result<(), AllocError>
    ensures { OnOk result (LendsFront front.now lent.old lent.new) }
{
    for place in 0..front.len() {
        lent.push(front.row(place))?;
    }
    Ok(())
}
