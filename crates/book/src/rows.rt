// Orders as rows, and what a row is asked.
ghost use Rattle.std.specs.Prelude.{◌≡◌};
ghost use Rattle.book.specs.Rows.{order_row, changed_row, Remakes};
ghost use Rattle.book.specs.RowTests.{row_ahead, row_of_pair, row_named, row_at_level, row_from};

use crate::compare;
use crate::order::{Order, Side, Terms};
use crate::row::Row;
use fields::{Amount, OrderId, Pair, Price};

// Methods, named as those of the terms, which they call. `From` is no plainer for `to_row`, whose contract names the terms' own
// `row`, nor `TryFrom` for `from_row`, since no caller reads an error.
impl<T: Terms> Order<T> {
    pub(crate) fn to_row(&self) -> Row<T::Row>
        ensures { result ≡ order_row T.Terms.row self.now }
    {
        Row {
            pair: self.pair.bytes(),
            side: self.side,
            id: self.id.bytes(),
            price: self.price.count(),
            amount: self.amount.count(),
            terms: self.terms.to_row(),
        }
    }

    // The order of a row, if the row is one of an order.
    pub(crate) fn from_row(row: &Row<T::Row>) -> Option<Order<T>>
        ensures { Remakes T.Terms.given row.now result }
    {
        Some(Order {
            pair: Pair::read(&row.pair).ok()?,
            side: row.side,
            id: OrderId::read(&row.id).ok()?,
            price: Price::from_count(row.price)?,
            amount: Amount::from_count(row.amount)?,
            terms: T::from_row(row.terms),
        })
    }
}

// The row with another amount and other terms.
pub(crate) fn reset_row<T: Terms>(row: &Row<T::Row>, amount: Amount, terms: T) -> Row<T::Row>
    ensures { result ≡ changed_row amount.count (T.Terms.row terms) row.now }
{
    Row {
        amount: amount.count(),
        terms: terms.to_row(),
        ..*row
    }
}

impl<R> Row<R> {
    // Whether the row is of a pair.
    pub(crate) fn is_of(&self, pair: &Pair) -> bool
        ensures { result ≡ row_of_pair pair.now self.now }
    {
        self.pair == pair.bytes()
    }

    pub(crate) fn is_named(&self, pair: &Pair, id: &OrderId) -> bool
        ensures { result ≡ row_named pair.now id.now self.now }
    {
        self.is_of(pair) && self.id == id.bytes()
    }

    pub(crate) fn is_at_level(&self, pair: &Pair, side: Side, price: Price) -> bool
        ensures { result ≡ row_at_level pair.now side price self.now }
    {
        self.is_of(pair) && self.side == side && self.price == price.count()
    }

    // Whether the row's order stays in front of another when that is placed.
    pub(crate) fn is_ahead<T>(&self, order: &Order<T>) -> bool
        ensures { result ≡ row_ahead self.now order.now }
    {
        let price = order.price.count();
        let within = compare::is_leading(self.side, self.price, order.side, price);
        compare::is_first(&self.pair, &order.pair.bytes(), within)
    }

    // Whether the row is at a pair, side and price, or behind.
    pub(crate) fn is_from(&self, pair: &Pair, side: Side, price: Price) -> bool
        ensures { result ≡ row_from pair.now side price self.now }
    {
        let within = compare::is_leading(side, price.count(), self.side, self.price);
        compare::is_first(&pair.bytes(), &self.pair, within)
    }
}
