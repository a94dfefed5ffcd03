// What the bytes of each field read as, and the trait by which a layout reads any field.
#![tactic(auto)]

mod decimals;
mod field;
mod integers;
pub mod laws;
mod optional;
mod sides;
mod texts;

pub use field::{Field, Filled};
