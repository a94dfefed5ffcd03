// Which order a message means, and where it names it.
ghost use Rattle.std.specs.Prelude.{◌≡◌};
ghost use Rattle.orders.specs.Applied.{new_offset, target, target_at, order_of_active};

use book::{BookFault, Order, Side};
use fields::{OrderId, Price};
use message::{Modify, replaced_at};
use venue::Venue;

// Where Cancel has its id, and Modify its active id.
pub(crate) const ID_AT: usize = 8;

// The offset that New's refusal has.
pub(crate) fn new_at(fault: BookFault) -> usize
    ensures { result ≡ new_offset fault }
{
    match fault {
        BookFault::NotStanding => 9,
        BookFault::Standing => 9,
        BookFault::Full => 0,
    }
}

// The order that Modify changes.
pub(crate) fn target_of<T: Copy>(change: &Modify<T>) -> OrderId
    ensures { result ≡ target change.now }
{
    change.replaced.unwrap_or(change.active)
}

// The offset of the field that names the order that Modify changes.
pub(crate) fn target_at<V: Venue>(replaced: Option<OrderId>) -> usize
    ensures { result ≡ target_at V.form replaced }
{
    // A match: whether there is a replaced id is asked, and the id itself is not read.
    match replaced {
        Some(_) => replaced_at::<V>(),
        None => ID_AT,
    }
}

// The order that a Modify with this price places.
pub(crate) fn active_order<T: Copy>(change: &Modify<T>, price: Price, side: Side) -> Order<T>
    ensures { result ≡ order_of_active change.now price side }
{
    Order {
        pair: change.pair,
        side,
        id: change.active,
        price,
        amount: change.amount,
        terms: change.terms,
    }
}
