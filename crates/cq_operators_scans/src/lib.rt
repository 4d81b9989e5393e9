//! Expressions and conditions over the columns of rows, up to 1,024 rows at a time.
//!
//! To its callers a [`Scan`] is its list of rows. [`vector_of`] gives the value of an expression in each of them,
//! [`truths_of`] the truth of a condition, and [`Scan::kept_by`] those rows in which it is True. By [`passing_places`] and
//! [`pass_marked`] a condition is asked of the rows of one source before they are joined.
#![tactic(auto)]

mod asked;
mod constant;
mod operand;
mod parts;
mod scan;
mod truths;
mod vectors;
mod worked;

pub use asked::{pass_marked, passing_places};
pub use constant::constant_of;
pub use operand::{Operand, lend_vectors};
pub use scan::Scan;
pub use truths::truths_of;
pub use vectors::{own_vector_of, vector_of};
