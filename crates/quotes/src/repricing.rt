// The repricing of an order, on any book.
ghost use Rattle.std.specs.Prelude.{◌≡◌};
ghost use Rattle.quotes.specs.Quotes.{repriced, Reprice};

use book::{Book, BookFault, Order, Terms, standing};
use fields::{OrderId, Pair, Price};

// The order at another price.
pub fn at_price<T: Copy>(order: &Order<T>, price: Price) -> Order<T>
    ensures { result ≡ repriced price order.now }
{
    Order { price, ..*order }
}

// Takes the order of a pair and id off, and places it again on its side at another price.
pub fn reprice<T: Terms, B: Book<T>>(
    book: &mut B,
    pair: Pair,
    id: OrderId,
    price: Price,
) -> Result<(), BookFault>
    ensures reprice { Reprice (B.Book.ladder book.old) pair id price result (B.Book.ladder book.new) }
    ensures kept { B.Book.capacity book.new ≡ B.Book.capacity book.old }
{
    let old = standing(book, pair, id).ok_or(BookFault::NotStanding)?;
    book.remove(pair, id)?;
    book.place(&at_price(&old, price))
}
