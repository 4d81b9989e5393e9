//! Tables and views, as they are lent.
ghost use Rattle.std.specs.Prelude.{IfOk, []};
ghost use Rattle.cq_test_plain.specs.Lent.{HoldRows};

use crate::source_rows::Lent;
use cq_model::Source;
use cq_values::{Row, Seq};
use std::alloc::{AllocError, Global};

/// The tables, each under its number.
pub(crate) fn lent_tables<'a>(
    alloc: Global,
    tables: &'a [Seq<Row>],
) -> Result<Vec<Lent<'a>>, AllocError>
    ensures { IfOk result (λ sources. HoldRows tables.now [] sources.items) }
{
    let mut sources = Vec::new(alloc);
    for (number, rows) in tables.iter().enumerate() {
        let source = Source::Table(number as u64);
        sources.push(Lent {
            source,
            rows: rows.as_slice(),
        })?;
    }
    Ok(sources)
}

/// The tables and the views, each under its number.
pub(crate) fn lent_all<'a>(
    alloc: Global,
    tables: &'a [Seq<Row>],
    views: &'a [Seq<Row>],
) -> Result<Vec<Lent<'a>>, AllocError>
    ensures { IfOk result (λ sources. HoldRows tables.now views.now sources.items) }
{
    let mut sources = lent_tables(alloc, tables)?;
    for (number, rows) in views.iter().enumerate() {
        let source = Source::View(number as u64);
        sources.push(Lent {
            source,
            rows: rows.as_slice(),
        })?;
    }
    Ok(sources)
}
