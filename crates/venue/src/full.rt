// The Full ECN.
ghost use Rattle.std.specs.Prelude.{◌≡◌, ◌≤◌, ◌++◌};
ghost use Rattle.fields.specs.Calls.{Writes};
ghost use Rattle.fields.specs.Fields.{quantity_text};
ghost use Rattle.venue.specs.Full.{full_form, limits, quantity_from};

use crate::kind::Venue;
use crate::terms::Limits;
use fields::{Fault, Quantity};
use readers::Field;

// The bytes of a quantity: a number, since the language takes no constant of a trait, as `<Quantity as Field>::WIDTH`, in a
// constant's value.
const WIDTH: usize = 16;

// Where the minimum quantity stands in the tail.
const MIN: usize = 0;

// Where the lot size stands in the tail.
const LOT: usize = 16;

// The quantity at `at` of a tail.
fn quantity_at(tail: &[u8], at: usize) -> Option<Quantity>
    requires { at ≤ 16 }
    ensures { result ≡ quantity_from at tail.now }
{
    <Quantity as Field>::read(tail.get(at..at + WIDTH)?)
}

// The limits of these two quantities, or the offset of the first that is not in form.
fn limits_of(min: Option<Quantity>, lot: Option<Quantity>) -> Result<Limits, usize>
    ensures { result ≡ limits min lot }
{
    let min = min.ok_or(MIN)?;
    let lot = lot.ok_or(LOT)?;
    Ok(Limits { min, lot })
}

// Writes two quantities, one behind the other, at `at`.
#[tactic(auto, using(crate::proofs::Behind::behind, crate::specs::Full::text_long))]
fn write_both(first: &Quantity, second: &Quantity, out: &mut [u8], at: usize) -> Result<(), Fault>
    ensures { Writes (quantity_text first.now.count ++ quantity_text second.now.count) out.old at result out.new }
{
    digits::field_end(out.len(), at, 2 * WIDTH)?;
    first.write(out, at)?;
    second.write(out, at + WIDTH)
}

// Orders with limits.
#[derive(Clone, Copy)]
pub struct FullEcn;

impl Venue for FullEcn {
    type Terms = Limits;

    ghost form = { full_form };

    fn width() -> usize {
        2 * WIDTH
    }

    fn priced() -> bool {
        true
    }

    fn modify_tail_first() -> bool {
        false
    }

    fn order_tail_first() -> bool {
        true
    }

    fn read(tail: &[u8]) -> Result<Limits, usize> {
        limits_of(quantity_at(tail, MIN), quantity_at(tail, LOT))
    }

    fn write(terms: &Limits, out: &mut [u8], at: usize) -> Result<(), Fault> {
        write_both(&terms.min, &terms.lot, out, at)
    }
}
