//! What holds of states, and of the tables at their epochs.
//!
//! Each function is a law: its body is empty, and its contract is the statement. The definitions are those of the steps.
#![tactic(auto)]

mod laws;

pub use laws::{
    commands_keep_sound, earlier_epochs_stay, joined_rows_one_epoch_on, new_table_is_empty_before,
    one_epoch_on, present_is_last_epoch, states_stay_sound, write_leads_on,
};
