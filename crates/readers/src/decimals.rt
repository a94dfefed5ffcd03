// Prices, amounts and quantities.
ghost use Rattle.readers.specs.Values.{DecimalIs, decimal_value};
ghost use Rattle.readers.specs.Lawful.{decimal_law};
ghost use Rattle.readers.specs.Blanks.{price_filled, amount_filled};

use crate::field::{Field, Filled};
use fields::{Amount, Decimal, DecimalKind, Price};

impl<K: DecimalKind> Field for Decimal<K> {
    const WIDTH: usize = K::WIDTH;

    ghost WIDTH = { K.WIDTH };

    ghost laid = { DecimalIs K.DecimalKind };

    ghost reads = { decimal_value K.DecimalKind };

    ghost exact = { decimal_law K.DecimalKind };

    fn read(bytes: &[u8]) -> Option<Decimal<K>> {
        Decimal::read(bytes).ok()
    }
}

// A quantity may be all spaces, so it has no field that may be left blank.
impl Filled for Price {
    ghost filled = { price_filled };
}

impl Filled for Amount {
    ghost filled = { amount_filled };
}
