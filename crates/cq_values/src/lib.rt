//! Values and rows: what a column can hold, the total order by which it is sorted, and how both are printed.
//!
//! To its callers a [`Text`] is its bytes, a [`Seq`] and a [`Row`] are lists, and a [`Day`] is a number; no clause sees
//! a buffer. Two values tie in the total order only where they are one value. The bytes of a printed value, row and
//! result are defined here (`Printed`); what prints them is `cq_csvio`.
#![tactic(auto)]

mod column;
mod comparison;
mod dates;
mod day;
mod day_part;
mod lent;
mod order;
mod pairs;
mod product;
mod row;
mod seq;
mod text;
mod total;
mod truth;
mod ty;
mod value;

pub use column::ColumnDef;
pub use comparison::Comparison;
pub use dates::{DateFault, calendar_ends, date_of};
pub use day::{CivilDay, Day};
pub use day_part::DayPart;
pub use lent::{Lent, cmp_lent, lend_column};
pub use order::cmp_total;
pub use pairs::both;
pub use row::{Row, copy_row};
pub use seq::Seq;
pub use text::Text;
pub use total::Total;
pub use truth::Truth;
pub use ty::Ty;
pub use value::Value;
