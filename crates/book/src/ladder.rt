// What a book is: a capacity and a ladder of standing orders.
ghost use Rattle.std.specs.Prelude.{◌≡◌, ℕ, ◌≤◌, true, List, length};
ghost use Rattle.book.specs.Ladder.{in_order, apart, named, at_level, at_rank, cleared, lookup};
ghost use Rattle.book.specs.Calls.{number, Place, Amend, Remove, Finds, Makes};
ghost use Rattle.book.specs.declared.order.Order.{Order};

use crate::order::{Order, Side, Terms};
use fields::{Amount, OrderId, Pair, Price};
use std::alloc::{AllocError, Global};

// Why a book refuses a change.
#[derive(Clone, Copy, PartialEq, Eq, Debug)]
pub enum BookFault {
    // No order of the pair has the id.
    NotStanding = 31,
    // An order of the pair has the id already.
    Standing = 32,
    // The ladder is as long as the capacity.
    Full = 33,
}

impl BookFault {
    // The number of the refusal. No `From` for a number: which number it is, is for the name to say.
    pub fn number(&self) -> u8
        ensures { result ≡ number self.now }
    {
        *self as u8
    }
}

// The capacity is given once for all, and every definition takes it as a number; the ladder is what changes. So `kept` stands in
// each contract, here and above: it ties the value before a call to the one after it, which no ghost field can.
// Pair and id stay two arguments, and so do side and price: the contracts and definitions speak of a pair and an id, and a struct
// would be built at each call only to be read field by field.
pub trait Book<T: Terms> {
    ghost capacity: { Self → ℕ };

    ghost ladder: { Self → List (Order T) };

    fn place(&mut self, order: &Order<T>) -> Result<(), BookFault>
        ensures place { Place (capacity self.old) (ladder self.old) order.now result (ladder self.new) }
        ensures kept { capacity self.new ≡ capacity self.old };

    // Sets amount and terms.
    fn amend(&mut self, pair: Pair, id: OrderId, amount: Amount, terms: T) -> Result<(), BookFault>
        ensures amend { Amend (ladder self.old) pair id amount terms result (ladder self.new) }
        ensures kept { capacity self.new ≡ capacity self.old };

    fn remove(&mut self, pair: Pair, id: OrderId) -> Result<(), BookFault>
        ensures remove { Remove (ladder self.old) pair id result (ladder self.new) }
        ensures kept { capacity self.new ≡ capacity self.old };

    // Takes off every order of the pair.
    fn clear(&mut self, pair: Pair)
        ensures clear { ladder self.new ≡ cleared pair (ladder self.old) }
        ensures kept { capacity self.new ≡ capacity self.old };

    fn len(&self) -> usize
        ensures { result ≡ length (ladder self.now) };

    fn capacity(&self) -> usize
        ensures { result ≡ capacity self.now };

    fn at(&self, rank: usize) -> Option<Order<T>>
        ensures { result ≡ at_rank (ladder self.now) rank };

    fn rank_of(&self, pair: Pair, id: OrderId) -> Option<usize>
        ensures { Finds (named pair id) (ladder self.now) result };

    // The rank of some order at this pair, side and price.
    fn rank_at(&self, pair: Pair, side: Side, price: Price) -> Option<usize>
        ensures { Finds (at_level pair side price) (ladder self.now) result };

    ghost sorted: { (b : Self) → in_order (ladder b) ≡ true };

    ghost distinct: { (b : Self) → apart (ladder b) ≡ true };

    ghost fits: { (b : Self) → length (ladder b) ≤ capacity b };

    ghost small: { (b : Self) → capacity b ≤ 512 };
}

// A book that is made from a storage.
pub trait MadeBook<T: Terms>: Book<T> + Sized {
    // An empty book of `slots` slots, or 512 if `slots` is more. No later call allocates.
    // Heap and slots stay two arguments: a heap is handed to whatever allocates, and has no part in a book's size.
    fn new(heap: Global, slots: usize) -> Result<Self, AllocError>
        ensures { Makes Self.Book.capacity Self.Book.ladder slots result };
}

// The standing order of a pair and id.
pub fn standing<T: Terms, B: Book<T>>(book: &B, pair: Pair, id: OrderId) -> Option<Order<T>>
    ensures { result ≡ lookup pair id (B.Book.ladder book.now) }
{
    book.rank_of(pair, id).and_then(|rank| book.at(rank))
}
