// Any message of a venue: read exactly as laid out, and applied to any book exactly as meant.
#![tactic(auto)]

mod any;
pub mod laws;
mod listing;
mod messages;
mod snapshots;
mod tasks;

pub use any::{apply, read};
pub use messages::Message;
