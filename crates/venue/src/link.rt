// Link Direct.
ghost use Rattle.venue.specs.Link.{link_form};

use crate::kind::Venue;
use crate::terms::MadeBy;
use fields::{Fault, Maker};
use readers::Field;

// Orders with their maker.
#[derive(Clone, Copy)]
pub struct LinkDirect;

impl Venue for LinkDirect {
    type Terms = MadeBy;

    ghost form = { link_form };

    fn width() -> usize {
        <Maker as Field>::WIDTH
    }

    fn priced() -> bool {
        true
    }

    fn modify_tail_first() -> bool {
        true
    }

    fn order_tail_first() -> bool {
        false
    }

    fn read(tail: &[u8]) -> Result<MadeBy, usize> {
        <Maker as Field>::read(tail)
            .map(|maker| MadeBy { maker })
            .ok_or(0)
    }

    fn write(terms: &MadeBy, out: &mut [u8], at: usize) -> Result<(), Fault> {
        terms.maker.write(out, at)
    }
}
