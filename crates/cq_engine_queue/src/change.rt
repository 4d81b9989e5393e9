//! What one write did.
//!
//! Rows stand as they came: those of a large write in columns. They are lent where they stand, and no value is copied.
ghost use Rattle.std.specs.Prelude.{◌≡◌, IfOk};
ghost use Rattle.cq_engine_queue.specs.Queued.{AreExchanged};
ghost use Rattle.cq_segments_pieces.specs.Rows.{stored_rows};
ghost use Rattle.cq_views.specs.Changes.{exchanged};

use cq_segments_pieces::StoredRow;
use cq_table_columns::Stored;
use cq_writestore::Written;
use cq_writestore_rows::NewRows;
use std::alloc::{AllocError, Global};
use std::marker::Model;

/// The rows that left the table of a number, and those that came to it.
#[derive(Drop)]
pub struct Change {
    table: u64,
    gone: NewRows,
    come: NewRows,
}

impl Model for Change {
    ghost use Rattle.cq_model_state.specs.State.{ChangeOf};
    ghost use Rattle.cq_views.specs.Changes.{exchanged};

    ghost Value = { ChangeOf };

    ghost view = { λ c. record { table = c.table; rows = exchanged c.gone c.come } };
}

impl Change {
    pub fn new(table: u64, gone: NewRows, come: NewRows) -> Change
        ensures { result ≡ record { table = table; rows = exchanged gone come } }
    {
        Change { table, gone, come }
    }

    /// The number of the table.
    pub fn table(&self) -> u64
        ensures { result ≡ self.now.table }
    {
        self.table
    }

    /// The rows that left and those that came, where they stand.
    pub fn rows(
        &self,
        alloc: Global,
    ) -> Result<(Vec<StoredRow<'_>>, Vec<StoredRow<'_>>), AllocError>
        ensures { IfOk result (AreExchanged self.now) }
    {
        let gone = lent_rows(alloc, &self.gone)?;
        let come = lent_rows(alloc, &self.come)?;
        Ok((gone, come))
    }
}

/// Rows on their way, where they stand.
fn lent_rows(alloc: Global, rows: &NewRows) -> Result<Vec<StoredRow<'_>>, AllocError>
    ensures { IfOk result (λ lent. stored_rows lent.items ≡ rows.now) }
{
    let count = rows.len();
    Stored::new(&[], Written::of_new(rows), count).first_live(alloc, count)
}
