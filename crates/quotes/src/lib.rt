// Quotes kept in a book of any kind. This crate sees the book's promises only.
#![tactic(auto)]

ghost use Rattle.std.specs.Prelude.{◌≡◌, ◌<◌, min, [], ◌∷◌, IfOk};
ghost use Rattle.quotes.specs.Quotes.{Requote};

use book::{Book, BookFault, MadeBook, Order, Terms};
use fields::{OrderId, Pair, Price};
use std::alloc::{AllocError, Global};

mod repricing;

pub use book::standing;
pub use repricing::{at_price, reprice};

// A new book with one order in it, if it has a slot.
pub fn opened<T: Terms, B: MadeBook<T> + Drop>(
    heap: Global,
    slots: usize,
    order: &Order<T>,
) -> Result<B, AllocError>
    ensures capacity { IfOk result (λ b. B.Book.capacity b ≡ min slots 512) }
    ensures ladder { IfOk result (λ b. 0 < slots → B.Book.ladder b ≡ order.now ∷ []) }
{
    let mut book = B::new(heap, slots)?;
    let _ = book.place(order);
    Ok(book)
}

// Gives an order another price, and tells its rank then.
pub fn requote<T: Terms, B: Book<T>>(
    book: &mut B,
    pair: Pair,
    id: OrderId,
    price: Price,
) -> Result<usize, BookFault>
    ensures requote { Requote (B.Book.ladder book.old) pair id price result (B.Book.ladder book.new) }
    ensures kept { B.Book.capacity book.new ≡ B.Book.capacity book.old }
{
    reprice(book, pair, id, price)?;
    book.rank_of(pair, id).ok_or(BookFault::NotStanding)
}
