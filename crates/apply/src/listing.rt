// A snapshot applied to a book, all or nothing.
ghost use Rattle.std.specs.Prelude.{◌≡◌, ◌+◌, ◌≤◌, Ok, length, nat_le};
ghost use Rattle.book.specs.Ladder.{at_rank};
ghost use Rattle.snapshot.specs.Snapshot.{snapshot_of};
ghost use Rattle.snapshot.specs.Checked.{checked};
ghost use Rattle.snapshot.specs.Listing.{cleared_all, room_needed, replaced};
ghost use Rattle.orders.specs.Applied.{Applies};
ghost use Rattle.apply.specs.Marks.{lists, stays, Right, unlisted, marks, listed_in};
ghost use Rattle.apply.specs.Meaning.{snapshot_after};

use crate::tasks::{Asked, Clearing, Placing, Seeking};
use book::{Book, BookFault, Terms};
use fields::Pair;
use message::{BookRefusal, MessageFault};
use snapshot::{Counts, visit_marks};
use std::marker::PhantomData;
use venue::Venue;

// A snapshot that was checked: its bytes, and how many pairs it lists and how many orders it puts.
#[derive(Drop)]
pub(crate) struct Listing<'a, V: Venue> {
    m: &'a [u8],
    counts: Counts,
    venue: PhantomData<V>,
    ghost was_checked: { checked (snapshot_of V.form m.now) ≡ Ok counts },
}

// Whether there is room for the orders that stay and those that are put.
fn has_room(capacity: usize, stay: usize, orders: usize) -> bool
    ensures { result ≡ nat_le (stay + orders) capacity }
{
    capacity
        .checked_sub(stay)
        .is_some_and(|left| orders <= left)
}

// Whether a pair was asked that is not listed.
fn is_unlisted(asked: Option<Asked>) -> bool
    ensures { result ≡ unlisted asked }
{
    asked.is_some_and(|asked| !asked.listed)
}

impl<'a, V: Venue> Listing<'a, V> {
    pub(crate) fn new(m: &'a [u8], counts: Counts) -> Self
        requires { checked (snapshot_of V.form m.now) ≡ Ok counts }
        ensures { result.m.now ≡ m.now }
    {
        Listing {
            m,
            counts,
            venue: PhantomData,
        }
    }

    // Whether the snapshot lists the pair.
    // A walk for each pair asked, and no set of pairs: nothing is allocated after making.
    fn lists(&self, pair: Pair) -> bool
        ensures { result ≡ lists (listed_in V.form self.now.m.now) pair }
    {
        let mut asked = Asked {
            pair,
            listed: false,
        };
        let _ = visit_marks::<V, Asked, Seeking>(self.m, &mut asked);
        asked.listed
    }

    // Whether the snapshot lists the pair, by what was asked last if that is the same.
    #[tactic(auto, using(crate::proofs::Keeping::pair_one, crate::proofs::Seeks::right_same))]
    fn ask(&self, pair: Pair, last: Option<Asked>) -> Asked
        ensures pair { result.pair ≡ pair }
        ensures right { Right (listed_in V.form self.now.m.now) last → result.listed ≡ lists (listed_in V.form self.now.m.now) pair }
    {
        match last {
            Some(asked) if asked.pair == pair => asked,
            _ => Asked {
                pair,
                listed: self.lists(pair),
            },
        }
    }

    // Whether the snapshot lists the pair of the order at a rank.
    fn ask_at<B: Book<V::Terms>>(&self, book: &B, rank: usize, last: Option<Asked>) -> Option<Asked>
        ensures right { Right (listed_in V.form self.now.m.now) last → Right (listed_in V.form self.now.m.now) result }
        ensures stays { Right (listed_in V.form self.now.m.now) last → unlisted result ≡ stays (listed_in V.form self.now.m.now) (at_rank (B.Book.ladder book.now) rank) }
    {
        let order = book.at(rank)?;
        Some(self.ask(order.pair, last))
    }

    // How many standing orders are of no pair listed.
    fn kept<B: Book<V::Terms>>(&self, book: &B) -> usize
        ensures { result ≡ length (cleared_all (listed_in V.form self.now.m.now) (B.Book.ladder book.now)) }
    {
        // A loop by rank, and no `filter` and `count`: a book is asked by rank, and each answer is handed on to the next rank, since it
        // serves all orders of its pair.
        let len = book.len();
        let mut n: usize = 0;
        let mut last: Option<Asked> = None;
        for rank in 0..len {
            last = self.ask_at(book, rank, last);
            if is_unlisted(last) {
                n += 1;
            }
        }
        n
    }

    // Clears the pairs listed, and places the orders as listed.
    fn replace<B: Book<V::Terms>>(&self, book: &mut B)
        ensures ladder { room_needed (marks V.form self.now.m.now) (B.Book.ladder book.old) ≤ B.Book.capacity book.old → B.Book.ladder book.new ≡ replaced (marks V.form self.now.m.now) (B.Book.ladder book.old) }
        ensures kept { B.Book.capacity book.new ≡ B.Book.capacity book.old }
    {
        let _ = visit_marks::<V, B, Clearing>(self.m, book);
        let _ = visit_marks::<V, B, Placing>(self.m, book);
    }

    // Replaces the pairs listed, or refuses with 33 before any change.
    pub(crate) fn apply<B: Book<V::Terms>>(&self, book: &mut B) -> Result<(), MessageFault>
        ensures applied { Applies (snapshot_after (B.Book.capacity book.old) (B.Book.ladder book.old) (marks V.form self.now.m.now)) (B.Book.ladder book.old) result (B.Book.ladder book.new) }
        ensures kept { B.Book.capacity book.new ≡ B.Book.capacity book.old }
    {
        let stay = self.kept(book);
        if !has_room(book.capacity(), stay, self.counts.orders) {
            return Err(BookRefusal {
                fault: BookFault::Full,
                at: 0,
            }
            .into());
        }
        self.replace(book);
        Ok(())
    }
}
