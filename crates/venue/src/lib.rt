// The venues: which terms an order has there, and the tail that carries them in a message.
#![tactic(auto)]

mod basic;
mod full;
mod kind;
pub mod laws;
mod link;
mod rows;
mod terms;

pub use basic::BasicEcn;
pub use full::FullEcn;
pub use kind::Venue;
pub use link::LinkDirect;
pub use terms::{Limits, MadeBy, NoTerms};
