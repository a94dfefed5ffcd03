// Integers of any width.
ghost use Rattle.readers.specs.Values.{integer_of, IntegerIs};
ghost use Rattle.readers.specs.Lawful.{integer_law};
ghost use Rattle.readers.specs.Blanks.{integer_filled};

use crate::field::{Field, Filled};
use fields::Integer;

impl<const W: usize> Field for Integer<W> {
    const WIDTH: usize = W;

    ghost WIDTH = { W };

    ghost laid = { IntegerIs W };

    ghost reads = { integer_of W };

    ghost exact = { integer_law W };

    fn read(bytes: &[u8]) -> Option<Integer<W>> {
        Integer::read(bytes).ok()
    }
}

impl<const W: usize> Filled for Integer<W> {
    ghost filled = { integer_filled W };
}
