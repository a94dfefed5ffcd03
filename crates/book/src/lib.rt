// The book of standing orders, a part that knows nothing of packets.
#![tactic(auto)]

mod compare;
mod finder;
mod ladder;
pub mod laws;
mod order;
mod packed;
mod row;
mod rows;

pub use ladder::{Book, BookFault, MadeBook, standing};
pub use order::{Order, Side, Terms};
pub use packed::PackedBook;
