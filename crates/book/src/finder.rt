// Rows looked up, and taken out: each in a function of its own, whose promise the check proves with no written proof, but for why
// the loop ends.
ghost use Rattle.std.specs.Prelude.{◌≡◌, ◌+◌, ◌<◌, ◌≤◌, length, vec_len, vec_capacity, MatchOption, slice_index_or};
ghost use Rattle.std.specs.List.{remove};
ghost use Rattle.book.specs.RowTests.{First, FrontWithin, row_named};

use crate::order::Side;
use crate::row::Row;
use fields::{OrderId, Pair, Price};

// The row at a rank.
pub(crate) fn row_at<R: Copy>(rows: &[Row<R>], rank: usize) -> Option<Row<R>>
    ensures { MatchOption result (length rows.now ≤ rank) (λ x. (rank < length rows.now) × (x ≡ slice_index_or rows.now rank x)) }
{
    rows.get(rank).copied()
}

// The rank of the row of a pair and id.
pub(crate) fn rank_named<R>(rows: &[Row<R>], pair: &Pair, id: &OrderId) -> Option<usize>
    ensures { First (row_named pair.now id.now) rows.now result }
{
    rows.iter().position(|row| row.is_named(pair, id))
}

// How many rows, from the first, hold all that are in front of a pair, side and price. The ranks tried are 0, 1, 3, 7 and so on,
// so that a level near the front is found in few steps.
pub(crate) fn front_within<R>(rows: &[Row<R>], pair: &Pair, side: Side, price: Price) -> usize
    ensures { FrontWithin pair.now side price rows.now result }
{
    let mut end = 0;
    while end < rows.len() && !rows[end].is_from(pair, side, price) {
        end = 2 * end + 1;
    }
    end.min(rows.len())
}

// Takes the row at a rank out.
pub(crate) fn take_out<R: Copy>(rows: &mut Vec<Row<R>>, rank: usize)
    requires { rank < vec_len rows.old }
    ensures items { rows.new.items ≡ remove rows.old.items rank }
    ensures len { vec_len rows.new + 1 ≡ vec_len rows.old }
    ensures capacity { vec_capacity rows.new ≡ vec_capacity rows.old }
{
    rows.remove(rank);
}
