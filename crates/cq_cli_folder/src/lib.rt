//! Files of a folder of the system, for the COPY statements of a script.
//!
//! To its callers a [`Folder`] is how often a read of it failed; what its files hold is the system's to say. No name leads
//! out of it ([`is_file_name`]).
#![tactic(auto)]

mod file_name;
mod folder;

pub use file_name::is_file_name;
pub use folder::Folder;
