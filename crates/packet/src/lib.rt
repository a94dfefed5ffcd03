// The form of a packet: by its letter, which lengths it may have and which fields stand where.
#![tactic(auto)]

mod directories;
mod heads;
pub mod laws;
mod layouts;
mod numbers;
mod packets;
mod reader;

pub use heads::{LONGEST, first_unprintable, head};
pub use layouts::layout;
pub use packets::{FormFault, Packet};
pub use reader::{message, read};
