//! The text of a result.
ghost use Rattle.std.specs.Prelude.{◌≡◌, IfOk, OnOk, map};
ghost use Rattle.std.specs.List.{flat_map};
ghost use Rattle.cq_csvio.specs.Lines.{AddsLines};
ghost use Rattle.cq_values.specs.Printed.{line_text, row_text, rows_text};

use crate::fault::TextFault;
use crate::fields::Field;
use crate::lines::Lines;
use cq_values::{Seq, Text};
use cq_values_rows::{LentRow, RowList};
use itoa::Buffer;
use std::alloc::Global;

/// The text of a result: how many rows there are, the header, and the rows as CSV.
#[tactic(auto, unfolding(cq_values::specs::Printed::rows_text))]
pub fn print_result(alloc: Global, header: &[Text], rows: &RowList) -> Result<Seq<u8>, TextFault>
    ensures { IfOk result (λ t. t ≡ rows_text header.now rows.now) }
{
    let mut buffer = Buffer::new();
    let mut text = Vec::from_slice(alloc, b"rows ")?;
    text.extend_from_slice(buffer.format(rows.len()).as_bytes())?;
    text.push(b'\n')?;
    let mut lines = Lines::new(alloc, text);
    add_line(&mut lines, header)?;
    add_rows(&mut lines, rows)?;
    Ok(Seq::from_vec(lines.into_text()?))
}

fn add_rows(lines: &mut Lines, rows: &RowList) -> Result<(), TextFault>
    ensures { OnOk result (AddsLines (flat_map row_text rows.now) lines.old lines.new) }
{
    for place in 0..rows.len() {
        add_row(lines, &rows.row(place))?;
    }
    Ok(())
}

fn add_row(lines: &mut Lines, row: &LentRow<'_>) -> Result<(), TextFault>
    ensures { OnOk result (AddsLines (row_text row.now) lines.old lines.new) }
{
    for at in 0..row.len() {
        row.lend(at).add_to(lines)?;
    }
    lines.end()
}

fn add_line<F: Field>(lines: &mut Lines, fields: &[F]) -> Result<(), TextFault>
    ensures { OnOk result (AddsLines (line_text (map F.text fields.now)) lines.old lines.new) }
{
    for field in fields {
        field.add_to(lines)?;
    }
    lines.end()
}
