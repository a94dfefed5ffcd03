// Comparisons of pairs, sides and prices.
ghost use Rattle.std.specs.Prelude.{◌≡◌, cond};
ghost use Rattle.std.specs.Str.{bytes_eq};
ghost use Rattle.book.specs.Sides.{before, leads};

use crate::order::Side;
use std::cmp::Ordering;

// Whether the first pair comes first in byte order; where the two are one pair, `within` decides.
// No derived order over pair, side and price together: the pair's rule decides first, and the side's and price's rule, which is
// handed in, is a rule of its own.
pub(crate) fn is_first(pair: &[u8; 7], other: &[u8; 7], within: bool) -> bool
    ensures { result ≡ cond (bytes_eq pair.now other.now) within (before pair.now other.now) }
{
    match pair.cmp(other) {
        Ordering::Less => true,
        Ordering::Equal => within,
        Ordering::Greater => false,
    }
}

// Whether, in one pair, an order of the first side and price that stands already leads one of the second.
// A derived order over sides with their prices, a bid's price reversed, is no plainer: the four cases say, as the rules have it,
// which side and price stays in front, equal prices included.
pub(crate) fn is_leading(side: Side, price: u64, other: Side, next: u64) -> bool
    ensures { result ≡ leads side price other next }
{
    match (side, other) {
        (Side::Bid, Side::Bid) => next <= price,
        (Side::Bid, Side::Offer) => true,
        (Side::Offer, Side::Bid) => false,
        (Side::Offer, Side::Offer) => price <= next,
    }
}
