// Integers of any width: spaces, then digits up to the field's end.
ghost use Rattle.std.specs.Prelude.{◌≡◌, ◌^◌, ◌<◌, ◌≤◌, length, decimal as figures, Decides};
ghost use Rattle.digits.specs.Calls.{Only, Puts};
ghost use Rattle.digits.specs.Numerals.{Whole};
ghost use Rattle.digits.specs.Written.{justified};

use crate::room::NoRoom;
use crate::texts::IntegerText;
use crate::{bytes, runs};

// Whether there are digits, and nothing behind them.
fn some_to_end(digits: &[u8], rest: &[u8]) -> bool
    ensures { Decides result ((0 < length digits.now) × (length rest.now ≡ 0)) }
{
    !digits.is_empty() && rest.is_empty()
}

// The number that `s` holds as spaces and then digits, or none if it holds none.
fn value(s: &[u8]) -> Option<u64>
    requires { length s.now ≤ 18 }
    ensures { Only (λ n. Whole s.now n × (n < 10 ^ length s.now)) result }
{
    let (digits, rest, n) = runs::read_digits(&s[runs::count_spaces(s)..], 0);
    if !some_to_end(digits, rest) {
        return None;
    }
    Some(n)
}

// The number that the bytes are, at most 18, as spaces and then digits, or none if they are none.
pub fn read_integer(s: &[u8]) -> Option<u64>
    ensures { Only (λ n. (length s.now ≤ 18) × Whole s.now n × (n < 10 ^ length s.now)) result }
{
    if s.len() > 18 {
        return None;
    }
    value(s)
}

// Fills `out` with the digits of `n` at its end, and spaces before them.
fn fill(out: &mut [u8], n: u64)
    requires { length (figures n) ≤ length out.old }
    ensures { out.new ≡ justified (length out.old) (figures n) }
{
    runs::put_spaces(out);
    let start = out.len() - runs::width(n);
    runs::put_figures(&mut out[start..], n);
}

impl IntegerText {
    // Writes it, after spaces, at `at`. It shares the end of the field with the decimals' writer; a closure for what fills the
    // field would be no plainer.
    pub fn write(&self, out: &mut [u8], at: usize) -> Result<(), NoRoom>
        ensures { Puts (justified self.now.width (figures self.now.value)) out.old at result out.new }
    {
        let end = bytes::field_end(out.len(), at, self.width)?;
        fill(&mut out[at..end], self.value);
        Ok(())
    }
}
