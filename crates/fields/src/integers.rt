// Integers of at most 18 digits.
ghost use Rattle.std.specs.Prelude.{◌≡◌, Decides, ◌==◌};
ghost use Rattle.std.specs.Cmp.Rules.{comparing};
ghost use Rattle.std.specs.Ordering.{on};
ghost use Rattle.std.proofs.Common.{rules};
ghost use Rattle.fields.specs.Calls.{Found, Makes, Reads, Writes};
ghost use Rattle.fields.specs.Fields.{IntegerField, integer_text};
ghost use Rattle.fields.specs.Ranges.{IntegerValue};

use crate::fault::Fault;
use digits::IntegerText;

// A number of at most `W` digits.
#[derive(Clone, Copy, Eq, Debug)]
pub struct Integer<const W: usize> {
    value: u64,
    ghost ok: { IntegerValue W value },
}

// Written out for `same`, as for decimals: see there.
impl<const W: usize> PartialEq for Integer<W> {
    ghost eq = { on (λ v. v.value) ◌==◌ };

    ghost laws = { Prim.search (comparing, rules) };

    fn eq(&self, other: &Integer<W>) -> bool
        ensures value { result ≡ (self.now.value == other.now.value) }
        ensures same { Decides result (self.now ≡ other.now) }
    {
        PartialEq::eq(&self.value, &other.value)
    }
}

// Whether `n` has at most `width` digits.
fn fits(n: u64, width: usize) -> bool
    ensures { Decides result (IntegerValue width n) }
{
    0 < width && width <= 18 && n < 10u64.pow(width as u32)
}

// The integer whose field the bytes are.
fn find<const W: usize>(bytes: &[u8]) -> Option<Integer<W>>
    ensures { Found (IntegerField W) (λ (n : Integer W). n.value) bytes.now result }
{
    if bytes.len() != W {
        return None;
    }
    let value = digits::read_integer(bytes)?;
    Some(Integer { value })
}

impl<const W: usize> Integer<W> {
    // The integer whose field the bytes are. No `TryFrom`, as for decimals: see there.
    pub fn read(bytes: &[u8]) -> Result<Integer<W>, Fault>
        ensures { Reads (IntegerField W) (λ (n : Integer W). n.value) bytes.now result }
    {
        find::<W>(bytes).ok_or(Fault::NotInForm)
    }

    // Writes it to its field at `at`.
    pub fn write(&self, out: &mut [u8], at: usize) -> Result<(), Fault>
        ensures { Writes (integer_text W self.now.value) out.old at result out.new }
    {
        let text = IntegerText {
            value: self.value,
            width: W,
        };
        Ok(text.write(out, at)?)
    }

    // The integer of this value. No `TryFrom`: as at decimals, there is no error to tell. An `if`, and no `then_some`: the integer
    // is made only where the test gave the fact that it keeps.
    pub fn from_value(value: u64) -> Option<Integer<W>>
        ensures { Makes (IntegerValue W) (λ (n : Integer W). n.value) value result }
    {
        if fits(value, W) {
            Some(Integer { value })
        } else {
            None
        }
    }

    // The number.
    pub fn value(&self) -> u64
        ensures { result ≡ self.now.value }
    {
        self.value
    }
}
