// The messages on one order, read exactly as a venue lays them out; and why a message is refused.
#![tactic(auto)]

mod fault;
pub mod laws;
mod messages;
mod numbers;
mod orders;
mod reader;

pub use fault::{BookRefusal, MessageFault};
pub use messages::{Cancel, Modify};
pub use orders::{read_cancel, read_modify, read_new, replaced_at};
pub use reader::{tail, value};
