// The readers of the messages on one order.
ghost use Rattle.std.specs.Prelude.{◌≡◌, Ok};
ghost use Rattle.message.specs.Reading.{sized};
ghost use Rattle.message.specs.Orders.{replaced_offset, new_of, amend_of, end_of, reprice_of, modify_of, cancel_of};

use crate::fault::MessageFault;
use crate::messages::{Cancel, Modify};
use crate::reader::{tail, value};
use book::{Order, Side};
use fields::{Amount, OrderId, Pair, Price};
use venue::Venue;

// Refuses a message that has not `n` bytes.
fn of_length(m: &[u8], n: usize) -> Result<(), MessageFault>
    ensures { result ≡ sized m.now n (Ok tt) }
{
    if m.len() != n {
        return Err(MessageFault::WrongLength);
    }
    Ok(())
}

// New.
#[tactic(auto, unfolding(crate::specs::Orders::new_of))]
pub fn read_new<V: Venue>(m: &[u8]) -> Result<Order<V::Terms>, MessageFault>
    ensures { result ≡ new_of V.form m.now }
{
    of_length(m, 50 + V::width())?;
    let side = value::<Side>(m, 1)?;
    let pair = value::<Pair>(m, 2)?;
    let id = value::<OrderId>(m, 9)?;
    let price = value::<Price>(m, 24)?;
    let amount = value::<Amount>(m, 34)?;
    let terms = tail::<V>(m, 50)?;
    Ok(Order {
        pair,
        side,
        id,
        price,
        amount,
        terms,
    })
}

// Modify at a venue where it has no price.
#[tactic(auto, unfolding(crate::specs::Orders::amend_of))]
fn read_amend<V: Venue>(m: &[u8]) -> Result<Modify<V::Terms>, MessageFault>
    ensures { result ≡ amend_of V.form m.now }
{
    of_length(m, 39 + V::width())?;
    let pair = value::<Pair>(m, 1)?;
    let active = value::<OrderId>(m, 8)?;
    let amount = value::<Amount>(m, 23)?;
    let terms = tail::<V>(m, 39)?;
    Ok(Modify {
        pair,
        active,
        price: None,
        amount,
        replaced: None,
        terms,
    })
}

// The tail and the replaced id of a Modify with price, in the venue's order.
#[tactic(auto, unfolding(crate::specs::Orders::end_of))]
fn read_end<V: Venue>(m: &[u8]) -> Result<(V::Terms, Option<OrderId>), MessageFault>
    ensures { result ≡ end_of V.form m.now }
{
    if V::modify_tail_first() {
        let terms = tail::<V>(m, 49)?;
        let replaced = value::<Option<OrderId>>(m, 49 + V::width())?;
        Ok((terms, replaced))
    } else {
        let replaced = value::<Option<OrderId>>(m, 49)?;
        let terms = tail::<V>(m, 64)?;
        Ok((terms, replaced))
    }
}

// Where a Modify with price has its replaced id.
pub fn replaced_at<V: Venue>() -> usize
    ensures { result ≡ replaced_offset V.form }
{
    if V::modify_tail_first() {
        49 + V::width()
    } else {
        49
    }
}

// Modify at a venue where it has a price.
#[tactic(auto, unfolding(crate::specs::Orders::reprice_of))]
fn read_reprice<V: Venue>(m: &[u8]) -> Result<Modify<V::Terms>, MessageFault>
    ensures { result ≡ reprice_of V.form m.now }
{
    of_length(m, 64 + V::width())?;
    let pair = value::<Pair>(m, 1)?;
    let active = value::<OrderId>(m, 8)?;
    let price = value::<Option<Price>>(m, 23)?;
    let amount = value::<Amount>(m, 33)?;
    let (terms, replaced) = read_end::<V>(m)?;
    if replaced.is_some() && price.is_none() {
        return Err(MessageFault::Unpriced(replaced_at::<V>()));
    }
    Ok(Modify {
        pair,
        active,
        price,
        amount,
        replaced,
        terms,
    })
}

// Modify, in the venue's form.
// A test of the venue's form, here and above, and no method of the venue: the layouts are written once, over any form.
pub fn read_modify<V: Venue>(m: &[u8]) -> Result<Modify<V::Terms>, MessageFault>
    ensures { result ≡ modify_of V.form m.now }
{
    if V::priced() {
        read_reprice::<V>(m)
    } else {
        read_amend::<V>(m)
    }
}

// Cancel.
#[tactic(auto, unfolding(crate::specs::Orders::cancel_of))]
pub fn read_cancel(m: &[u8]) -> Result<Cancel, MessageFault>
    ensures { result ≡ cancel_of m.now }
{
    of_length(m, 23)?;
    let pair = value::<Pair>(m, 1)?;
    let id = value::<OrderId>(m, 8)?;
    Ok(Cancel { pair, id })
}
