// Look-ups that skip over the bytes of a snapshot. They read its counts, compare bytes at a stride, and stop at the offset up to
// which they are asked. Message and offset are read together, and stay two arguments: the results are offsets, which are compared
// as values, and a struct of both would be made anew at each step.
ghost use Rattle.std.specs.Prelude.{◌≡◌, ◌+◌, ◌*◌, ◌<◌, ◌≤◌, length, Decides, MatchOption};
ghost use Rattle.std.specs.Str.{bytes_eq};
ghost use Rattle.message.specs.Reading.{field};
ghost use Rattle.fields.specs.Values.{Pair};
ghost use Rattle.book.specs.declared.order.Side.{Side};
ghost use Rattle.snapshot.specs.Scanning.{times};
ghost use Rattle.snapshot.specs.Skims.{Skims, Ends, PutsId, ListsPair, id_offset, order_width, count_in, strided, sides_at};
ghost use Rattle.snapshot.specs.Snapshot.{level_at, side_at, pair_at, snapshot_of};

use fields::Integer;
use readers::Field;
use std::ops::ControlFlow;
use venue::Venue;

// An id that is looked for in a message, up to an offset. A look-up breaks off once it is decided whether the id was met, and else
// goes on from where it ends.
#[derive(Clone, Copy)]
pub(crate) struct Sought<'a> {
    pub m: &'a [u8],
    pub upto: usize,
    pub id: &'a [u8; 15],
}

// The `n` bytes at `at`, where the message has that many.
fn bytes_at(m: &[u8], at: usize, n: usize) -> Option<&[u8]>
    ensures { MatchOption result (length m.now < at + n) (λ part. (at + n ≤ length m.now) × (part.now ≡ field at n m.now)) }
{
    m.get(at..)?.get(..n)
}

// Whether these bytes stand at `at`. By `==`, and no `starts_with`: on ids that differ early `==` takes half the time.
fn same_at(m: &[u8], at: usize, bytes: &[u8]) -> bool
    ensures { Decides result ((at + length bytes.now ≤ length m.now) × (field at (length bytes.now) m.now ≡ bytes.now)) }
{
    bytes_at(m, at, bytes.len()).is_some_and(|part| part == bytes)
}

// The offset of the id in an order.
// As `replaced_at` of `message`, with another test and offset: a shared one would take both as arguments at each call.
fn id_place<V: Venue>() -> usize
    ensures { result ≡ id_offset V.form }
{
    if V::order_tail_first() {
        16 + V::width()
    } else {
        16
    }
}

// The bytes of an order.
fn order_size<V: Venue>() -> usize
    ensures { result ≡ order_width V.form }
{
    31 + V::width()
}

// The offset `k` bytes after `at`, where the message has that many. The message is an argument for the clause only.
pub(crate) fn after(m: &[u8], at: usize, k: usize) -> usize
    ensures { at + k ≤ length m.now → result ≡ at + k }
{
    at.saturating_add(k)
}

// The count at `at`, or 0 where there is none: a look-up never fails, since the fault of the layout is told by the walk.
fn count_at(m: &[u8], at: usize) -> usize
    ensures read { result ≡ count_in m.now at }
    ensures small { result < 10000 }
{
    message::value::<Integer<4>>(m, at).map_or(0, |count| count.value() as usize)
}

// How many orders the level at `at` has.
fn level_count(m: &[u8], at: usize) -> usize
    ensures read { at + 10 ≤ length m.now → result ≡ count_in m.now (at + 10) }
    ensures small { result < 10000 }
{
    count_at(m, after(m, at, 10))
}

// Where a level at `at` of `count` orders ends. Counts are plain numbers here: one is 0 where none is read, and an `Integer<4>`
// of 0 comes only as an `Option`.
fn orders_end<V: Venue>(m: &[u8], at: usize, count: usize) -> usize
    requires { count < 10000 }
    ensures { at + (14 + count * order_width V.form) ≤ length m.now → result ≡ at + (14 + count * order_width V.form) }
{
    after(m, at, 14 + count * order_size::<V>())
}

// Where the level at `at` ends.
fn level_end<V: Venue>(m: &[u8], at: usize) -> usize
    ensures { (c : Pair) (s : Side) → Ends (level_at V.form m.now c s at) result }
{
    orders_end::<V>(m, at, level_count(m, at))
}

// Where `n` levels from `at` end.
fn levels_end<V: Venue>(m: &[u8], at: usize, n: usize) -> usize
    ensures { (c : Pair) (s : Side) → Ends (times (level_at V.form m.now c s) n at) result }
{
    (0..n).fold(at, |at, _| level_end::<V>(m, at))
}

// Where the side at `at` ends.
fn side_end<V: Venue>(m: &[u8], at: usize) -> usize
    ensures { (c : Pair) (s : Side) → Ends (side_at V.form m.now c s at) result }
{
    levels_end::<V>(m, after(m, at, 4), count_at(m, at))
}

// Where the pair at `at` ends, with its sides.
fn pair_end<V: Venue>(m: &[u8], at: usize) -> usize
    ensures { Ends (pair_at V.form m.now at) result }
{
    let offers = side_end::<V>(m, after(m, at, 7));
    side_end::<V>(m, offers)
}

// Whether the snapshot lists the pair before `upto`. A loop and no `try_fold`: its step would need a definition of what it answers,
// as `Skims` is for an id.
pub(crate) fn pair_met<V: Venue>(m: &[u8], upto: usize, pair: &[u8; 7]) -> bool
    ensures { ListsPair upto pair.now (snapshot_of V.form m.now) result }
{
    let n = count_at(m, 7);
    let mut at = 11;
    for _ in 0..n {
        if at >= upto {
            return false;
        }
        if same_at(m, at, pair) {
            return true;
        }
        at = pair_end::<V>(m, at);
    }
    false
}

impl Sought<'_> {
    // Whether the id stands at `at`.
    fn is_at(&self, at: usize) -> bool
        ensures { result ≡ bytes_eq (field at 15 self.now.m.now) self.now.id.now }
    {
        let id = self.id;
        same_at(self.m, at, id)
    }

    // Whether one of `n` ids from `from`, each `step` bytes after the last, stands before the offset and is this one. A loop: a chain
    // over the offsets (`step_by`, `take`, `any`) took twice the time.
    fn met(&self, from: usize, n: usize, step: usize) -> bool
        ensures { result ≡ strided self.now.m.now self.now.upto self.now.id.now step n from }
    {
        let mut at = from;
        for _ in 0..n {
            if at >= self.upto {
                return false;
            }
            if self.is_at(at) {
                return true;
            }
            at = at.saturating_add(step);
        }
        false
    }

    // Looks through the level at `at`: whether the id was met, or where the level ends.
    fn level<V: Venue>(&self, at: usize) -> ControlFlow<bool, usize>
        ensures { (c : Pair) (s : Side) → Skims self.now.upto self.now.id.now (level_at V.form self.now.m.now c s at) result }
    {
        if at >= self.upto {
            return ControlFlow::Break(false);
        }
        let count = level_count(self.m, at);
        let ids = after(self.m, at, 14 + id_place::<V>());
        if self.met(ids, count, order_size::<V>()) {
            return ControlFlow::Break(true);
        }
        ControlFlow::Continue(orders_end::<V>(self.m, at, count))
    }

    // Looks through `n` levels from `at`.
    fn levels<V: Venue>(&self, at: usize, n: usize) -> ControlFlow<bool, usize>
        ensures { (c : Pair) (s : Side) → Skims self.now.upto self.now.id.now (times (level_at V.form self.now.m.now c s) n at) result }
    {
        (0..n).try_fold(at, |at, _| self.level::<V>(at))
    }

    // Looks through the side at `at`.
    fn side<V: Venue>(&self, at: usize) -> ControlFlow<bool, usize>
        ensures { (c : Pair) (s : Side) → Skims self.now.upto self.now.id.now (side_at V.form self.now.m.now c s at) result }
    {
        self.levels::<V>(after(self.m, at, 4), count_at(self.m, at))
    }

    // Looks through the bids at `at`, and then the offers behind them.
    fn sides<V: Venue>(&self, at: usize) -> ControlFlow<bool, usize>
        ensures { (c : Pair) → Skims self.now.upto self.now.id.now (sides_at V.form self.now.m.now c at) result }
    {
        let offers = self.side::<V>(at)?;
        self.side::<V>(offers)
    }

    // Whether the pair whose bids begin at `at` puts the id before the offset.
    pub fn is_put<V: Venue>(&self, at: usize) -> bool
        ensures { (c : Pair) → PutsId self.now.upto self.now.id.now (sides_at V.form self.now.m.now c at) result }
    {
        self.sides::<V>(at).break_value().unwrap_or(false)
    }
}
