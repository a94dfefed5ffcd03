// A walk over the bytes of a snapshot, which does a task at each pair and each order in layout order. Message and state stay
// arguments of their own. A struct with a reference to the message and a `&mut` to the state would be no plainer: each function
// would be its method, and the contracts would speak of the struct's fields before and after.
ghost use Rattle.std.specs.Prelude.{◌≡◌};
ghost use Rattle.snapshot.specs.Named.{named_at};
ghost use Rattle.snapshot.specs.Scanning.{field_at, tail_then, times};
ghost use Rattle.snapshot.specs.Snapshot.{order_at, level_at, side_at, pair_at, pairs_from, snapshot_of};
ghost use Rattle.snapshot.specs.Walked.{Walked};

use crate::mark::Mark;
use crate::task::Task;
use book::{Order, Side};
use fields::{Amount, Integer, OrderId, Pair, Price};
use message::MessageFault;
use readers::Field;
use venue::Venue;

// The value at `at`, and the offset after it; no slice, since results are compared as values and two equal slices are no equal
// values.
#[tactic(auto, unfolding(crate::specs::Scanning::field_at), using(message::proofs::Readings::value_read))]
fn next<F: Field>(m: &[u8], at: usize) -> Result<(F, usize), MessageFault>
    ensures { result ≡ field_at m.now F.WIDTH F.reads at }
{
    let value = message::value::<F>(m, at)?;
    Ok((value, at + F::WIDTH))
}

// The terms at `at`, and the offset after them.
#[tactic(auto, unfolding(crate::specs::Scanning::tail_then), using(message::proofs::Readings::tail_read))]
fn next_tail<V: Venue>(m: &[u8], at: usize) -> Result<(V::Terms, usize), MessageFault>
    ensures { result ≡ tail_then V.form m.now at }
{
    let terms = message::tail::<V>(m, at)?;
    Ok((terms, at + V::width()))
}

// The id and the terms at `at`, in the venue's order, with the offset of the id; and the offset after them.
#[tactic(auto, unfolding(crate::specs::Named::named_at))]
// As `read_end` of `message`, with another field beside the tail, and with the offsets.
fn named<V: Venue>(m: &[u8], at: usize) -> Result<((usize, OrderId, V::Terms), usize), MessageFault>
    ensures { result ≡ named_at V.form m.now at }
{
    if V::order_tail_first() {
        let (terms, id_at) = next_tail::<V>(m, at)?;
        let (id, end) = next::<OrderId>(m, id_at)?;
        return Ok(((id_at, id, terms), end));
    }
    let (id, tail_at) = next::<OrderId>(m, at)?;
    let (terms, end) = next_tail::<V>(m, tail_at)?;
    Ok(((at, id, terms), end))
}

// One side of a pair: what its prices share.
#[derive(Clone, Copy)]
struct BookSide {
    pair: Pair,
    side: Side,
}

// One price of a side: what its orders share.
#[derive(Clone, Copy)]
// Its own pair and side, and no `BookSide` in it: an order takes the two field by field.
struct PriceLevel {
    pair: Pair,
    side: Side,
    price: Price,
}

// The order at `at`: the offset after it.
#[tactic(auto, using(crate::proofs::Walks::order_walks))]
fn order<V: Venue, S, K: Task<V::Terms, S>>(
    m: &[u8],
    state: &mut S,
    at: usize,
    level: &PriceLevel,
) -> Result<usize, MessageFault>
    ensures { Walked (K.steps m.now) (order_at V.form m.now level.now.pair level.now.side level.now.price at) state.old result state.new }
{
    let (amount, name_at) = next::<Amount>(m, at)?;
    let ((id_at, id, terms), end) = named::<V>(m, name_at)?;
    let mark = Mark::Puts(
        id_at,
        Order {
            pair: level.pair,
            side: level.side,
            id,
            price: level.price,
            amount,
            terms,
        },
    );
    K::visit(m, state, &mark);
    Ok(end)
}

// `n` orders from `at`. `(0..n).try_fold` was tried here: after that call nothing is known of the state that its closure changed,
// and the proof did not close. The loops over orders, prices and pairs stay three, since one for all would take the step as a
// closure too.
#[tactic(auto, using(crate::proofs::Walks::turns))]
fn orders<V: Venue, S, K: Task<V::Terms, S>>(
    m: &[u8],
    state: &mut S,
    mut at: usize,
    n: u64,
    level: &PriceLevel,
) -> Result<usize, MessageFault>
    ensures { Walked (K.steps m.now) (times (order_at V.form m.now level.now.pair level.now.side level.now.price) n at) state.old result state.new }
{
    for _ in 0..n {
        at = order::<V, S, K>(m, state, at, level)?;
    }
    Ok(at)
}

// The price at `at`, the number of its orders, and the orders.
#[tactic(auto, unfolding(crate::specs::Snapshot::level_at), using(crate::proofs::Walks::walked_err))]
fn level<V: Venue, S, K: Task<V::Terms, S>>(
    m: &[u8],
    state: &mut S,
    at: usize,
    of: &BookSide,
) -> Result<usize, MessageFault>
    ensures { Walked (K.steps m.now) (level_at V.form m.now of.now.pair of.now.side at) state.old result state.new }
{
    let (price, count_at) = next::<Price>(m, at)?;
    let (count, orders_at) = next::<Integer<4>>(m, count_at)?;
    let n = count.value();
    if n == 0 {
        return Err(MessageFault::Miscounted(count_at));
    }
    let level = PriceLevel {
        pair: of.pair,
        side: of.side,
        price,
    };
    orders::<V, S, K>(m, state, orders_at, n, &level)
}

// `n` prices from `at`.
#[tactic(auto, using(crate::proofs::Walks::turns))]
fn levels<V: Venue, S, K: Task<V::Terms, S>>(
    m: &[u8],
    state: &mut S,
    mut at: usize,
    n: u64,
    of: &BookSide,
) -> Result<usize, MessageFault>
    ensures { Walked (K.steps m.now) (times (level_at V.form m.now of.now.pair of.now.side) n at) state.old result state.new }
{
    for _ in 0..n {
        at = level::<V, S, K>(m, state, at, of)?;
    }
    Ok(at)
}

// The number of prices at `at`, and the prices.
#[tactic(auto, unfolding(crate::specs::Snapshot::side_at), using(crate::proofs::Walks::walked_err))]
fn side_of<V: Venue, S, K: Task<V::Terms, S>>(
    m: &[u8],
    state: &mut S,
    at: usize,
    of: &BookSide,
) -> Result<usize, MessageFault>
    ensures { Walked (K.steps m.now) (side_at V.form m.now of.now.pair of.now.side at) state.old result state.new }
{
    let (count, levels_at) = next::<Integer<4>>(m, at)?;
    levels::<V, S, K>(m, state, levels_at, count.value(), of)
}

// The pair at `at`, its bids and its offers.
#[tactic(auto, unfolding(crate::specs::Snapshot::pair_at), using(crate::proofs::Walks::walks))]
fn pair_of<V: Venue, S, K: Task<V::Terms, S>>(
    m: &[u8],
    state: &mut S,
    at: usize,
) -> Result<usize, MessageFault>
    ensures { Walked (K.steps m.now) (pair_at V.form m.now at) state.old result state.new }
{
    let (pair, bids_at) = next::<Pair>(m, at)?;
    let mark = Mark::Lists(at, pair);
    K::visit(m, state, &mark);
    let bids = BookSide {
        pair,
        side: Side::Bid,
    };
    let offers = BookSide {
        pair,
        side: Side::Offer,
    };
    let offers_at = side_of::<V, S, K>(m, state, bids_at, &bids)?;
    side_of::<V, S, K>(m, state, offers_at, &offers)
}

// `n` pairs from `at`.
#[tactic(auto, using(crate::proofs::Walks::turns))]
fn pairs<V: Venue, S, K: Task<V::Terms, S>>(
    m: &[u8],
    state: &mut S,
    mut at: usize,
    n: u64,
) -> Result<usize, MessageFault>
    ensures { Walked (K.steps m.now) (times (pair_at V.form m.now) n at) state.old result state.new }
{
    for _ in 0..n {
        at = pair_of::<V, S, K>(m, state, at)?;
    }
    Ok(at)
}

// The number of pairs at `at`, and the pairs.
#[tactic(auto, unfolding(crate::specs::Snapshot::pairs_from), using(crate::proofs::Walks::walked_err))]
fn all_pairs<V: Venue, S, K: Task<V::Terms, S>>(
    m: &[u8],
    state: &mut S,
    at: usize,
) -> Result<usize, MessageFault>
    ensures { Walked (K.steps m.now) (pairs_from V.form m.now at) state.old result state.new }
{
    let (count, pairs_at) = next::<Integer<4>>(m, at)?;
    pairs::<V, S, K>(m, state, pairs_at, count.value())
}

// The snapshot: the task at each mark, up to the message's end or the first fault.
#[tactic(auto, unfolding(crate::specs::Snapshot::snapshot_of), using(crate::proofs::Walks::walked_err))]
pub fn visit_marks<V: Venue, S, K: Task<V::Terms, S>>(
    m: &[u8],
    state: &mut S,
) -> Result<usize, MessageFault>
    ensures { Walked (K.steps m.now) (snapshot_of V.form m.now) state.old result state.new }
{
    let (size, at) = next::<Integer<6>>(m, 1)?;
    if size.value() != (m.len() - at) as u64 {
        return Err(MessageFault::Miscounted(1));
    }
    let end = all_pairs::<V, S, K>(m, state, at)?;
    if end != m.len() {
        return Err(MessageFault::Miscounted(end));
    }
    Ok(end)
}
