//! Stored columns as vectors lend them: at most 1,024 values where a segment keeps them.
//!
//! Numbers and days stand as they are or as offsets above a base, and texts one behind the other in a run or as the codes
//! of its entries. Offsets and codes that were read at some places are the column's own. To its callers each of these is
//! the list of its values; none takes memory.
#![tactic(auto)]

mod codes;
mod flagged_offsets;
mod lent_days;
mod lent_numbers;
mod narrow;
mod narrow_days;
mod offsets;
mod own_offsets;
mod run_texts;
mod text_run;

pub use codes::Codes;
pub use lent_days::{LentDays, lend_day};
pub use lent_numbers::LentNumbers;
pub use narrow::Narrow;
pub use narrow_days::NarrowDays;
pub use offsets::Offsets;
pub use own_offsets::OwnOffsets;
pub use run_texts::RunTexts;
pub use text_run::TextRun;
