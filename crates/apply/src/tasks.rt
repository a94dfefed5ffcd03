// What the walks over a snapshot do at each mark.
ghost use Rattle.std.specs.Prelude.{◌≡◌, ◌<◌, false, ◌||◌, length};
ghost use Rattle.book.specs.Ladder.{stands, placed};
ghost use Rattle.apply.specs.Marks.{names, clears, Places};

use book::{Book, Order, Terms};
use fields::Pair;
use snapshot::{Mark, Task};

// A pair, and whether the snapshot lists it. Either answer is a value: an enum of the two would hold the pair in both.
#[derive(Clone, Copy)]
pub struct Asked {
    pub pair: Pair,
    pub listed: bool,
}

// Whether the pair asked is one of those that the snapshot lists.
pub struct Seeking;

impl<T: Terms> Task<T, Asked> for Seeking {
    ghost steps = { λ m s k t. (t.pair ≡ s.pair) × (t.listed ≡ (s.listed || names s.pair k)) };

    fn visit(m: &[u8], state: &mut Asked, mark: &Mark<T>) {
        match mark {
            Mark::Lists(_, pair) => state.listed |= *pair == state.pair,
            Mark::Puts(_, _) => {}
        }
    }
}

// Clears each pair listed.
pub struct Clearing;

impl<T: Terms, B: Book<T>> Task<T, B> for Clearing {
    ghost steps = { λ m b k c. (B.Book.ladder c ≡ clears k (B.Book.ladder b)) × (B.Book.capacity c ≡ B.Book.capacity b) };

    fn visit(m: &[u8], state: &mut B, mark: &Mark<T>) {
        match mark {
            Mark::Lists(_, pair) => state.clear(*pair),
            Mark::Puts(_, _) => {}
        }
    }
}

// Places the order, unless the book refuses it.
fn put<T: Terms, B: Book<T>>(book: &mut B, order: &Order<T>)
    ensures placed { stands order.now.pair order.now.id (B.Book.ladder book.old) ≡ false → length (B.Book.ladder book.old) < B.Book.capacity book.old → B.Book.ladder book.new ≡ placed order.now (B.Book.ladder book.old) }
    ensures kept { B.Book.capacity book.new ≡ B.Book.capacity book.old }
{
    let _ = book.place(order);
}

// Places each order put.
pub struct Placing;

impl<T: Terms, B: Book<T>> Task<T, B> for Placing {
    ghost steps = { λ m b k c. Places (B.Book.capacity b) k (B.Book.ladder b) (B.Book.ladder c) × (B.Book.capacity c ≡ B.Book.capacity b) };

    fn visit(m: &[u8], state: &mut B, mark: &Mark<T>) {
        match mark {
            Mark::Lists(_, _) => {}
            Mark::Puts(_, order) => put(state, order),
        }
    }
}
