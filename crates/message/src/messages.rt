// What the messages on one order say.
use fields::{Amount, OrderId, Pair, Price};

// What Modify gives. It has no price where the venue's Modify has none or where it is left blank.
#[derive(Clone, Copy)]
pub struct Modify<T> {
    pub pair: Pair,
    pub active: OrderId,
    pub price: Option<Price>,
    pub amount: Amount,
    pub replaced: Option<OrderId>,
    pub terms: T,
}

// The order that Cancel names.
#[derive(Clone, Copy)]
pub struct Cancel {
    pub pair: Pair,
    pub id: OrderId,
}
