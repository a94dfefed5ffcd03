// What any message says.
use book::Order;
use message::{Cancel, Modify};

// A message that was read. A snapshot is told by the number of pairs that it lists; a blank one lists none.
#[derive(Drop)]
pub enum Message<T> {
    // N
    New(Order<T>),
    // M
    Modify(Modify<T>),
    // X
    Cancel(Cancel),
    // S
    Snapshot(usize),
    // T
    Trade,
    // V
    Volume,
}
