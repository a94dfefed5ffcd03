// The kinds of decimals on the line.
ghost use Rattle.fields.specs.Ranges.{priced, amounted, quantified};
ghost use Rattle.fields.specs.Fields.{PriceField, AmountField, QuantityField, price_text, amount_text, quantity_text};
ghost use Rattle.fields.specs.Kinds.{price_laws, amount_laws, quantity_laws};

use crate::decimals::{Decimal, DecimalKind};

// Prices, counted in hundred-thousandths.
#[derive(Clone, Copy, PartialEq, Eq, Debug)]
pub struct PriceKind;

impl DecimalKind for PriceKind {
    const WIDTH: usize = 10;

    const PLACES: usize = 5;

    const LEAST: u64 = 1;

    const MOST: u64 = 999_999_999;

    ghost WIDTH = { 10 };

    ghost PLACES = { 5 };

    ghost LEAST = { 1 };

    ghost MOST = { 999999999 };

    ghost may = { priced };

    ghost field = { PriceField };

    ghost text = { price_text };

    ghost laws = { price_laws };
}

// Kinds by name, and no one kind over four numbers: amounts and quantities differ in the least count alone.
// Amounts, counted in hundredths.
#[derive(Clone, Copy, PartialEq, Eq, Debug)]
pub struct AmountKind;

impl DecimalKind for AmountKind {
    const WIDTH: usize = 16;

    const PLACES: usize = 2;

    const LEAST: u64 = 1;

    const MOST: u64 = 1_000_000_000_000_000;

    ghost WIDTH = { 16 };

    ghost PLACES = { 2 };

    ghost LEAST = { 1 };

    ghost MOST = { 1000000000000000 };

    ghost may = { amounted };

    ghost field = { AmountField };

    ghost text = { amount_text };

    ghost laws = { amount_laws };
}

// Quantities, counted in hundredths; 0 is no restriction, and is written as spaces.
#[derive(Clone, Copy, PartialEq, Eq, Debug)]
pub struct QuantityKind;

impl DecimalKind for QuantityKind {
    const WIDTH: usize = 16;

    const PLACES: usize = 2;

    const LEAST: u64 = 0;

    const MOST: u64 = 1_000_000_000_000_000;

    ghost WIDTH = { 16 };

    ghost PLACES = { 2 };

    ghost LEAST = { 0 };

    ghost MOST = { 1000000000000000 };

    ghost may = { quantified };

    ghost field = { QuantityField };

    ghost text = { quantity_text };

    ghost laws = { quantity_laws };
}

pub type Price = Decimal<PriceKind>;

pub type Amount = Decimal<AmountKind>;

pub type Quantity = Decimal<QuantityKind>;
