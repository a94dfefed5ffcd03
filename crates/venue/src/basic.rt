// The Basic ECN.
ghost use Rattle.venue.specs.Basic.{basic_form};

use crate::kind::Venue;
use crate::terms::NoTerms;
use fields::Fault;

// Orders without terms; a Modify without price.
#[derive(Clone, Copy)]
pub struct BasicEcn;

impl Venue for BasicEcn {
    type Terms = NoTerms;

    ghost form = { basic_form };

    fn width() -> usize {
        0
    }

    fn priced() -> bool {
        false
    }

    fn modify_tail_first() -> bool {
        false
    }

    fn order_tail_first() -> bool {
        false
    }

    fn read(tail: &[u8]) -> Result<NoTerms, usize> {
        Ok(NoTerms)
    }

    fn write(terms: &NoTerms, out: &mut [u8], at: usize) -> Result<(), Fault> {
        digits::field_end(out.len(), at, 0)?;
        Ok(())
    }
}
