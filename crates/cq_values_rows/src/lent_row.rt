//! Rows that are read where they stand.
//!
//! `len` and `lend` read a row's values, and `cmp` compares rows column by column. None takes memory.
ghost use Rattle.std.specs.Prelude.{◌≡◌, length};
ghost use Rattle.cq_values.specs.Lent.{owned};
ghost use Rattle.cq_values.specs.Order.{row_cmp};
ghost use Rattle.cq_values.specs.Value.{column};
ghost use Rattle.cq_values_rows.specs.Columns.{row_at};

use crate::value_column::ValueColumn;
use cq_values::{Lent, Value, cmp_lent, lend_column};
use std::cmp::Ordering;
use std::marker::Model;

/// A row that is lent: its values stand in one list, or at a place of columns.
#[derive(Drop)]
pub struct LentRow<'r> {
    form: LentForm<'r>,
}

#[derive(Drop)]
enum LentForm<'r> {
    Values(&'r [Value]),
    Columns(&'r [ValueColumn], usize),
}

impl<'r> Model for LentRow<'r> {
    ghost use Rattle.cq_values.specs.Value.{Row as Values};
    ghost use Rattle.cq_values_rows.specs.LentRow.{lent_values};

    ghost Value = { Values };

    ghost view = { λ r. lent_values r.form };
}

impl<'r> LentRow<'r> {
    /// These values.
    #[inline]
    pub fn of(values: &'r [Value]) -> LentRow<'r>
        ensures { result ≡ values.now }
    {
        LentRow {
            form: LentForm::Values(values),
        }
    }

    /// The values at a place of columns.
    #[inline]
    pub(crate) fn of_columns(columns: &'r [ValueColumn], place: usize) -> LentRow<'r>
        ensures { result ≡ row_at columns.now place }
    {
        LentRow {
            form: LentForm::Columns(columns, place),
        }
    }

    /// How many values there are.
    #[inline]
    pub fn len(&self) -> usize
        ensures { result ≡ length self.now }
    {
        match &self.form {
            LentForm::Values(values) => values.len(),
            LentForm::Columns(columns, _) => columns.len(),
        }
    }

    /// The value in a column, and NULL past the end.
    #[inline]
    pub fn lend(&self, at: usize) -> Lent<'r>
        ensures { owned result ≡ column self.now at }
    {
        match &self.form {
            LentForm::Values(values) => lend_column(*values, at),
            LentForm::Columns(columns, place) => lend_at(*columns, *place, at),
        }
    }

    /// Which of two rows stands first: column by column, and a row before what extends it.
    pub fn cmp(&self, other: &LentRow<'_>) -> Ordering
        ensures { result ≡ row_cmp self.now other.now }
    {
        for at in 0..self.len().min(other.len()) {
            let ordering = cmp_lent(&self.lend(at), &other.lend(at));
            if ordering.is_ne() {
                return ordering;
            }
        }
        self.len().cmp(&other.len())
    }
}

#[inline]
fn lend_at(columns: &[ValueColumn], place: usize, at: usize) -> Lent<'_>
    ensures { owned result ≡ column (row_at columns.now place) at }
{
    match columns.get(at) {
        Some(values) => values.lend(place),
        None => Lent::Null,
    }
}
