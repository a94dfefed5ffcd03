// What a venue decides.
ghost use Rattle.std.specs.Prelude.{◌≡◌};
ghost use Rattle.fields.specs.Calls.{Writes};
ghost use Rattle.venue.specs.Form.{Form};

use book::Terms;
use fields::Fault;

// The width and the three answers are functions of no argument, not constants of the trait: the four are fields of one
// record, the venue's form, and a clause ties each to it. A constant would need a law that does so, cited in every proof.
// Whether Modify has a price, and whether its tail comes first there, stay two answers, though the second matters only where the
// first is true: the venue's rules fix the two apart from each other.
pub trait Venue {
    // What an order has beyond pair, side, id, price and amount.
    type Terms: Terms;

    ghost form: { Form Self.Terms };

    // The bytes of the tail.
    fn width() -> usize
        ensures { result ≡ form.width };

    // Whether Modify has a price and a replaced id.
    fn priced() -> bool
        ensures { result ≡ form.priced };

    // Whether the tail precedes the replaced id in a Modify with a price.
    fn modify_tail_first() -> bool
        ensures { result ≡ form.modify_tail_first };

    // Whether the tail precedes the id in a snapshot's order.
    fn order_tail_first() -> bool
        ensures { result ≡ form.order_tail_first };

    // The terms in a tail, or the offset in it of the first field that is not in form.
    fn read(tail: &[u8]) -> Result<Self::Terms, usize>
        ensures { result ≡ form.reads tail.now };

    // Writes the tail of the terms at `at`.
    fn write(terms: &Self::Terms, out: &mut [u8], at: usize) -> Result<(), Fault>
        ensures { Writes (form.writes terms.now) out.old at result out.new };
}
