// Orders, and the terms that they carry.
ghost use Rattle.std.specs.Prelude.{◌≡◌, Some};
ghost use Rattle.book.specs.Sides.{side_name};

use fields::{Amount, OrderId, Pair, Price};
use std::fmt;

#[derive(Clone, Copy, PartialEq, Eq, Debug)]
pub enum Side {
    Bid,
    Offer,
}

impl fmt::Display for Side {
    ghost output = { λ side. Some (side_name side) };

    fn fmt<W: fmt::Write>(&self, f: &mut fmt::Formatter<W>) -> fmt::Result {
        f.write_str(match self {
            Side::Bid => "bid",
            Side::Offer => "offer",
        })
    }
}

// What an order carries besides its common fields. By the project's rule values lie in slots, and in any other table, as plain
// rows, so terms have a row of their own: any row gives some terms, and the row of terms gives back those terms.
// Any row gives some terms, and no Option: so the fact that a book keeps of its rows need not speak of terms.
pub trait Terms: Copy {
    type Row: Copy;

    ghost row: { Self → Self.Row };

    ghost given: { Self.Row → Self };

    // No `From`: the law that ties the two is this trait's.
    fn to_row(&self) -> Self::Row
        ensures { result ≡ row self.now };

    fn from_row(plain: Self::Row) -> Self
        ensures { result ≡ given plain };

    ghost back: { (t : Self) → given (row t) ≡ t };
}

#[derive(Clone, Copy)]
pub struct Order<T> {
    pub pair: Pair,
    pub side: Side,
    pub id: OrderId,
    pub price: Price,
    pub amount: Amount,
    pub terms: T,
}
