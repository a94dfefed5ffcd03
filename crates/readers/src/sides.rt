// The side of an order.
ghost use Rattle.std.specs.Prelude.{◌≡◌};
ghost use Rattle.readers.specs.Values.{side_for, side_of, SideIs};
ghost use Rattle.readers.specs.Lawful.{side_law};
ghost use Rattle.std.proofs.Common.{rules};

use crate::field::{Field, Filled};
use book::Side;

// The side of a letter. No `TryFrom`: it would have to stand with the side, in the book, which knows nothing of messages.
fn side_of(letter: u8) -> Option<Side>
    ensures { result ≡ side_for letter }
{
    match letter {
        b'B' => Some(Side::Bid),
        b'S' => Some(Side::Offer),
        _ => None,
    }
}

impl Field for Side {
    const WIDTH: usize = 1;

    ghost WIDTH = { 1 };

    ghost laid = { SideIs };

    ghost reads = { side_of };

    ghost exact = { side_law };

    fn read(bytes: &[u8]) -> Option<Side> {
        let [letter] = bytes else {
            return None;
        };
        side_of(*letter)
    }
}

impl Filled for Side {
    ghost filled = { Prim.search rules };
}
