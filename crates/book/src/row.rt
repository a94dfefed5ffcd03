// The plain row of an order, as it lies in a slot. It stands beside `Order` by the project's rule for every kind of book and any
// other table: values lie there as plain rows of bytes and numbers, and a value is made again from its row after a check.
use crate::order::Side;

#[derive(Clone, Copy)]
pub struct Row<R> {
    pub pair: [u8; 7],
    pub side: Side,
    pub id: [u8; 15],
    pub price: u64,
    pub amount: u64,
    pub terms: R,
}
