// The messages on one order, applied to a book.
ghost use Rattle.std.specs.Prelude.{◌≡◌, true, false};
ghost use Rattle.book.specs.Ladder.{stands, without, placed};
ghost use Rattle.orders.specs.Applied.{new_offset, new_after, cancel_after, target, taken, changed, modify_after, Applies};

use crate::naming::{self, ID_AT};
use book::{Book, BookFault, Order, Side, Terms, standing};
use fields::{OrderId, Pair};
use message::{BookRefusal, Cancel, MessageFault, Modify};
use venue::Venue;

// New: places the order.
#[tactic(auto, using(crate::proofs::Afters::by_32, crate::proofs::Afters::by_33), unfolding(crate::specs::Applied::new_after))]
pub fn apply_new<V: Venue, B: Book<V::Terms>>(
    book: &mut B,
    order: &Order<V::Terms>,
) -> Result<(), MessageFault>
    ensures applied { Applies (new_after (B.Book.capacity book.old) (B.Book.ladder book.old) order.now) (B.Book.ladder book.old) result (B.Book.ladder book.new) }
    ensures kept { B.Book.capacity book.new ≡ B.Book.capacity book.old }
{
    book.place(order).map_err(|fault| BookRefusal {
        fault,
        at: naming::new_at(fault),
    })?;
    Ok(())
}

// Cancel: removes the order.
#[tactic(auto, using(crate::proofs::Afters::by_31), unfolding(crate::specs::Applied::cancel_after))]
pub fn apply_cancel<V: Venue, B: Book<V::Terms>>(
    book: &mut B,
    cancel: &Cancel,
) -> Result<(), MessageFault>
    ensures applied { Applies (cancel_after (B.Book.ladder book.old) cancel.now) (B.Book.ladder book.old) result (B.Book.ladder book.new) }
    ensures kept { B.Book.capacity book.new ≡ B.Book.capacity book.old }
{
    book.remove(cancel.pair, cancel.id)
        .map_err(|fault| BookRefusal { fault, at: ID_AT })?;
    Ok(())
}

// Whether the active id is not the target, and stands.
#[tactic(auto, using(book::specs::Ladders::finds_stands))]
fn is_taken<T: Terms, B: Book<T>>(book: &B, change: &Modify<T>) -> bool
    ensures { result ≡ taken (B.Book.ladder book.now) change.now }
{
    naming::target_of(change) != change.active && book.rank_of(change.pair, change.active).is_some()
}

// Removes the target, and places the order.
#[tactic(auto, using(book::specs::Ladders::without_shorter, book::specs::Lookups::not_refused))]
fn replace<T: Terms, B: Book<T>>(book: &mut B, target: OrderId, order: &Order<T>)
    requires stood { stands order.now.pair target (B.Book.ladder book.old) ≡ true }
    requires free { stands order.now.pair order.now.id (without order.now.pair target (B.Book.ladder book.old)) ≡ false }
    ensures done { B.Book.ladder book.new ≡ placed order.now (without order.now.pair target (B.Book.ladder book.old)) }
    ensures kept { B.Book.capacity book.new ≡ B.Book.capacity book.old }
{
    book.remove(order.pair, target).unwrap();
    book.place(order).unwrap();
}

// Amends the target, or replaces it where there is a price.
fn make<T: Terms, B: Book<T>>(book: &mut B, change: &Modify<T>, side: Side)
    requires stood { stands change.now.pair (target change.now) (B.Book.ladder book.old) ≡ true }
    requires free { stands change.now.pair change.now.active (without change.now.pair (target change.now) (B.Book.ladder book.old)) ≡ false }
    ensures done { B.Book.ladder book.new ≡ changed (B.Book.ladder book.old) change.now change.now.price side }
    ensures kept { B.Book.capacity book.new ≡ B.Book.capacity book.old }
{
    let target = naming::target_of(change);
    match change.price {
        None => book
            .amend(change.pair, target, change.amount, change.terms)
            .unwrap(),
        Some(price) => replace(book, target, &naming::active_order(change, price, side)),
    }
}

// Modify: amends the target, or removes it and places the active id.
#[tactic(auto, using(crate::proofs::Afters::free_after, book::specs::Lookups::lookup_stands), unfolding(crate::specs::Applied::modify_after))]
pub fn apply_modify<V: Venue, B: Book<V::Terms>>(
    book: &mut B,
    change: &Modify<V::Terms>,
) -> Result<(), MessageFault>
    ensures applied { Applies (modify_after V.form (B.Book.ladder book.old) change.now) (B.Book.ladder book.old) result (B.Book.ladder book.new) }
    ensures kept { B.Book.capacity book.new ≡ B.Book.capacity book.old }
{
    let target = naming::target_of(change);
    let old = standing(book, change.pair, target).ok_or(BookRefusal {
        fault: BookFault::NotStanding,
        at: naming::target_at::<V>(change.replaced),
    })?;
    if is_taken(book, change) {
        return Err(BookRefusal {
            fault: BookFault::Standing,
            at: ID_AT,
        }
        .into());
    }
    make(book, change, old.side);
    Ok(())
}
