// What the messages on one order do to a book of any kind.
#![tactic(auto)]

mod applying;
pub mod laws;
mod naming;

pub use applying::{apply_cancel, apply_modify, apply_new};
