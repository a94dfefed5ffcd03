// A book that keeps the ladder in adjoining slots.
ghost use Rattle.std.specs.Prelude.{◌≡◌, ◌≤◌, vec_len, vec_capacity, nat_le};
ghost use Rattle.book.specs.Rows.{orders, OfLadder};
ghost use Rattle.book.specs.RowTests.{AheadOf};
ghost use Rattle.book.specs.Packing.{ladder_sorted, ladder_distinct, orders_fit};

use crate::finder;
use crate::ladder::{Book, BookFault, MadeBook};
use crate::order::{Order, Side, Terms};
use crate::row::Row;
use crate::rows::reset_row;
use fields::{Amount, OrderId, Pair, Price};
use std::alloc::{AllocError, Global};

// The first `slots` places of the rows' memory are the book's slots. Their number stands beside the rows, since a Vec may
// hold more room than was asked for, and the capacity is the number asked. The last fact says that the rows are those of a
// ladder.
#[derive(Drop)]
pub struct PackedBook<T: Terms> {
    rows: Vec<Row<T::Row>>,
    slots: usize,
    ghost small: { slots ≤ 512 },
    ghost fits: { vec_len rows ≤ slots },
    ghost held: { slots ≤ vec_capacity rows },
    ghost ladder: { OfLadder rows.items },
}

fn is_full(len: usize, capacity: usize) -> bool
    ensures { result ≡ nat_le capacity len }
{
    len >= capacity
}

impl<T: Terms> PackedBook<T> {
    // How many orders, from the first, stay in front of the order when it is placed.
    fn place_for(&self, order: &Order<T>) -> usize
        ensures { AheadOf order.now self.now.rows.items result }
    {
        self.rows.partition_point(|row| row.is_ahead(order))
    }
}

impl<T: Terms> Book<T> for PackedBook<T> {
    ghost capacity = { λ b. b.slots };

    ghost ladder = { λ b. orders T.Terms.given b.rows.items b.ladder.formed };

    ghost sorted = { λ b. ladder_sorted T.Terms.given b.rows.items b.ladder };

    ghost distinct = { λ b. ladder_distinct T.Terms.given b.rows.items b.ladder };

    ghost fits = { λ b. orders_fit T.Terms.given b.rows.items b.ladder.formed (vec_len b.rows) b.slots b.rows.ok.0 b.fits };

    ghost small = { λ b. b.small };

    fn place(&mut self, order: &Order<T>) -> Result<(), BookFault> {
        if self.rank_of(order.pair, order.id).is_some() {
            return Err(BookFault::Standing);
        }
        if is_full(self.len(), self.capacity()) {
            return Err(BookFault::Full);
        }
        let rank = self.place_for(order);
        // There is a slot left, so this takes no memory.
        let _ = self.rows.insert(rank, order.to_row());
        Ok(())
    }

    fn amend(
        &mut self,
        pair: Pair,
        id: OrderId,
        amount: Amount,
        terms: T,
    ) -> Result<(), BookFault> {
        let rank = self.rank_of(pair, id).ok_or(BookFault::NotStanding)?;
        self.rows[rank] = reset_row(&self.rows[rank], amount, terms);
        Ok(())
    }

    fn remove(&mut self, pair: Pair, id: OrderId) -> Result<(), BookFault> {
        let rank = self.rank_of(pair, id).ok_or(BookFault::NotStanding)?;
        finder::take_out(&mut self.rows, rank);
        Ok(())
    }

    // Not in a function of its own, as `remove` has it: which rows `retain` keeps needs a written proof there as here.
    fn clear(&mut self, pair: Pair) {
        self.rows.retain(|row| !row.is_of(&pair));
    }

    #[tactic(auto, using(crate::specs::Packing::orders_length))]
    fn len(&self) -> usize {
        self.rows.len()
    }

    fn capacity(&self) -> usize {
        self.slots
    }

    fn at(&self, rank: usize) -> Option<Order<T>> {
        finder::row_at(&self.rows, rank).and_then(|row| Order::from_row(&row))
    }

    fn rank_of(&self, pair: Pair, id: OrderId) -> Option<usize> {
        finder::rank_named(&self.rows, &pair, &id)
    }

    fn rank_at(&self, pair: Pair, side: Side, price: Price) -> Option<usize> {
        let end = finder::front_within(&self.rows, &pair, side, price);
        let rank = self.rows[..end].partition_point(|row| !row.is_from(&pair, side, price));
        let row = self.rows.get(rank)?;
        row.is_at_level(&pair, side, price).then_some(rank)
    }
}

impl<T: Terms> MadeBook<T> for PackedBook<T> {
    fn new(heap: Global, slots: usize) -> Result<PackedBook<T>, AllocError> {
        let slots = slots.min(512);
        let rows = Vec::with_capacity(heap, slots)?;
        Ok(PackedBook { rows, slots })
    }
}
