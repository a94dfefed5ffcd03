// What a snapshot lists.
use book::Order;

// A pair that a snapshot lists, or an order that it puts, with the offset of the pair or of the order's id in the message.
#[derive(Drop)]
pub enum Mark<T> {
    Lists(usize, fields::Pair),
    Puts(usize, Order<T>),
}
