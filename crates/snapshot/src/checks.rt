// A snapshot message is checked whole, repeats included.
ghost use Rattle.std.specs.Prelude.{◌≡◌, ◌+◌, ◌^◌, ◌<◌, None};
ghost use Rattle.snapshot.specs.Checked.{checked, told, PairNoted, IdNoted, PairSeen, OrderSeen, MarkSeen};
ghost use Rattle.snapshot.specs.Snapshot.{snapshot_of};

use crate::mark::Mark;
use crate::skim::{Sought, after, pair_met};
use crate::task::Task;
use crate::walk::visit_marks;
use book::Order;
use fields::{OrderId, Pair};
use message::MessageFault;
use std::marker::PhantomData;
use venue::Venue;

// How many pairs a snapshot lists, and how many orders it puts.
#[derive(Clone, Copy, PartialEq, Eq, Debug, Default)]
pub struct Counts {
    pub pairs: usize,
    pub orders: usize,
}

// What was seen so far: where the bids of the pair listed last begin (0 before any pair, when no order can come), the offset of the
// first repeat, and how many there are.
#[derive(Clone, Copy, Default)]
pub(crate) struct Seen {
    start: usize,
    first: Option<usize>,
    counts: Counts,
}

// The check of each mark, at a venue.
struct Checking<V>(PhantomData<V>);

// The repeat at the pair at `at`, if it is one.
// Repeats are looked for in the message's bytes, and in no set: nothing is allocated after making.
fn pair_repeat<V: Venue>(m: &[u8], at: usize, pair: &Pair) -> Option<usize>
    ensures { PairNoted V.form m.now None at pair.now.bytes result }
{
    pair_met::<V>(m, at, &pair.bytes()).then_some(at)
}

// The repeat at the id at `at`, if it is one, in the pair whose bids begin at `start`.
fn id_repeat<V: Venue>(m: &[u8], start: usize, at: usize, id: &OrderId) -> Option<usize>
    ensures { IdNoted V.form m.now None start at id.now.bytes result }
{
    let sought = Sought {
        m,
        upto: at,
        id: &id.bytes(),
    };
    sought.is_put::<V>(start).then_some(at)
}

// A count and one more, where that is a `usize`.
fn one_more(n: usize) -> usize
    ensures { n + 1 < 2 ^ 64 → result ≡ n + 1 }
{
    n.saturating_add(1)
}

fn pair_seen<V: Venue>(m: &[u8], seen: Seen, at: usize, pair: &Pair) -> Seen
    ensures { PairSeen V.form m.now seen at pair.now result }
{
    Seen {
        start: after(m, at, 7),
        first: seen.first.or_else(|| pair_repeat::<V>(m, at, pair)),
        counts: Counts {
            pairs: one_more(seen.counts.pairs),
            ..seen.counts
        },
    }
}

fn order_seen<V: Venue>(m: &[u8], seen: Seen, at: usize, order: &Order<V::Terms>) -> Seen
    ensures { OrderSeen V.form m.now seen at order.now result }
{
    Seen {
        first: seen
            .first
            .or_else(|| id_repeat::<V>(m, seen.start, at, &order.id)),
        counts: Counts {
            orders: one_more(seen.counts.orders),
            ..seen.counts
        },
        ..seen
    }
}

impl<V: Venue> Task<V::Terms, Seen> for Checking<V> {
    ghost steps = { MarkSeen V.Venue.form };

    fn visit(m: &[u8], state: &mut Seen, mark: &Mark<V::Terms>) {
        match mark {
            Mark::Lists(at, pair) => *state = pair_seen::<V>(m, *state, *at, pair),
            Mark::Puts(at, order) => *state = order_seen::<V>(m, *state, *at, order),
        }
    }
}

// The counts, unless there was a repeat.
// A match: of the methods only `map_or` makes an error of what an Option holds, and it would take both answers too.
fn outcome(seen: Seen) -> Result<Counts, MessageFault>
    ensures { result ≡ told seen.first seen.counts }
{
    match seen.first {
        Some(at) => Err(MessageFault::Repeated(at)),
        None => Ok(seen.counts),
    }
}

// Checks the snapshot: how many pairs it lists and how many orders it puts, or the first fault of its layout, or else its first
// repeat.
pub fn check<V: Venue>(m: &[u8]) -> Result<Counts, MessageFault>
    ensures { result ≡ checked (snapshot_of V.form m.now) }
{
    let mut seen = Seen::default();
    visit_marks::<V, Seen, Checking<V>>(m, &mut seen)?;
    outcome(seen)
}
