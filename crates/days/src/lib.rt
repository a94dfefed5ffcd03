// What a stream of packets means, and what holds over whole days of calls.
#![tactic(auto)]

mod events;
mod faults;
mod state;

pub use events::{Event, Report};
pub use faults::{Layer, PacketFault};
pub use state::State;
