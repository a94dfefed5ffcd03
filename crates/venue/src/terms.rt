// The terms that orders carry at the venues, with their rows.
ghost use Rattle.venue.specs.Rows.{quantity_given, maker_given};
ghost use Rattle.std.proofs.Common.{rules, sym};
ghost use Rattle.std.specs.Prelude.{refl};
ghost use Rattle.venue.specs.Remade.{quantity_given_back, maker_given_back};

use crate::rows;
use book::Terms;
use fields::{Maker, Quantity};

// No terms: an order has nothing beyond its common fields.
#[derive(Clone, Copy)]
pub struct NoTerms;

impl Terms for NoTerms {
    type Row = NoTerms;

    ghost row = { λ t. t };

    ghost given = { λ r. r };

    ghost back = { Prim.search rules };

    fn to_row(&self) -> NoTerms {
        NoTerms
    }

    fn from_row(plain: NoTerms) -> NoTerms {
        plain
    }
}

// The minimum quantity and the lot size; 0 is no restriction.
#[derive(Clone, Copy)]
pub struct Limits {
    pub min: Quantity,
    pub lot: Quantity,
}

impl Terms for Limits {
    // The counts of the minimum quantity and of the lot size.
    type Row = (u64, u64);

    ghost row = { λ t. (t.min.count, t.lot.count) };

    ghost given = { λ r. record { min = quantity_given r.0; lot = quantity_given r.1 } };

    ghost back = { λ t i. record { min = sym (quantity_given_back t.min _ refl) i; lot = sym (quantity_given_back t.lot _ refl) i } };

    fn to_row(&self) -> (u64, u64) {
        (self.min.count(), self.lot.count())
    }

    fn from_row(plain: (u64, u64)) -> Limits {
        Limits {
            min: rows::quantity_of(plain.0),
            lot: rows::quantity_of(plain.1),
        }
    }
}

// The maker of an order.
#[derive(Clone, Copy)]
pub struct MadeBy {
    pub maker: Maker,
}

impl Terms for MadeBy {
    type Row = [u8; 16];

    ghost row = { λ t. t.maker.bytes };

    ghost given = { λ r. record { maker = maker_given r } };

    ghost back = { λ t i. record { maker = sym (maker_given_back t.maker _ refl) i } };

    fn to_row(&self) -> [u8; 16] {
        self.maker.bytes()
    }

    fn from_row(plain: [u8; 16]) -> MadeBy {
        MadeBy {
            maker: rows::maker_of(&plain),
        }
    }
}
