// Decimals of any width and number of places.
ghost use Rattle.std.specs.Prelude.{◌≡◌, ◌≢◌, ℕ, ◌+◌, ◌*◌, ◌^◌, ◌<◌, ◌≤◌, ◌++◌, List, ◌∷◌, length, take, Decides, MatchOption, slice_index, slice_set};
ghost use Rattle.std.specs.List.{AllByRecursion};
ghost use Rattle.std.specs.Option.{ForSome};
ghost use Rattle.digits.specs.Bytes.{Space};
ghost use Rattle.digits.specs.Calls.{Only, Puts};
ghost use Rattle.digits.specs.Numerals.{Decimal, DecimalField, Part, pointed, read_on};
ghost use Rattle.digits.specs.Written.{decimals, written, padded, overwritten};

use crate::room::NoRoom;
use crate::texts::{DecimalForm, DecimalText};
use crate::{bytes, runs};

// `n` units of a place with `left` places after it, in units of the last.
fn scaled(n: u64, left: usize) -> u64
    requires { (n * 10 ^ left < 2 ^ 63) × (left ≤ 18) }
    ensures { result ≡ n * 10 ^ left }
{
    n * 10u64.pow(left as u32)
}

// What stands behind the point that `s` begins with, or none where it begins with none.
fn after_point(s: &[u8]) -> Option<&[u8]>
    ensures { MatchOption result ((rest : List ℕ) → s.now ≢ 46 ∷ rest) (λ rest. s.now ≡ 46 ∷ rest.now) }
{
    s.strip_prefix(b".")
}

// Whether there is a digit, and only spaces behind the digits.
fn some_then_spaces(digits: &[u8], pad: &[u8]) -> bool
    ensures { Decides result ((0 < length digits.now) × AllByRecursion Space pad.now) }
{
    !digits.is_empty() && runs::spaces(pad, 0)
}

// The digits behind a point, where `s` is a point and digits, or nothing, and then spaces, and the number that they write after those
// of `n`.
fn find_part(s: &[u8], n: u64) -> Option<(&[u8], u64)>
    requires { (n + 1) * 10 ^ length s.now ≤ 10 ^ 18 }
    ensures part { MatchOption result ((part : List ℕ) → Part s.now part → ⊥) (λ found. Part s.now found.0.now) }
    ensures number { ForSome result (λ found. found.1 ≡ read_on n found.0.now) }
    ensures bound { ForSome result (λ found. found.1 < (n + 1) * 10 ^ length found.0.now) }
{
    let Some(after) = after_point(s) else {
        return runs::spaces(s, 0).then_some((&s[..0], n));
    };
    let (part, pad, n) = runs::read_digits(after, n);
    some_then_spaces(part, pad).then_some((part, n))
}

// Whether there are digits before the point, and no more than the places behind it.
fn some_and_few(whole: &[u8], part: &[u8], places: usize) -> bool
    ensures { Decides result ((0 < length whole.now) × (length part.now ≤ places)) }
{
    !whole.is_empty() && part.len() <= places
}

// The count of the decimal that `s` holds, in units of the last of the places, or none if it holds none.
fn count(s: &[u8], places: usize) -> Option<u64>
    requires { length s.now + places ≤ 18 }
    ensures { Only (Decimal places s.now) result }
{
    let (whole, rest, n) = runs::read_digits(s, 0);
    let (part, n) = find_part(rest, n)?;
    if !some_and_few(whole, part, places) {
        return None;
    }
    Some(scaled(n, places - part.len()))
}

impl DecimalForm {
    // The count of the decimal that the bytes are, in units of the last of the places, or none if they are none.
    pub fn find(&self, s: &[u8]) -> Option<u64>
        ensures { Only (DecimalField self.now.width self.now.places s.now) result }
    {
        if s.len() != self.width {
            return None;
        }
        count(s, self.places)
    }
}

// Writes the decimals of `rest` over the first bytes of `out`, `unit` being that of the place before them. Places, unit and rest
// stay arguments with their bounds: `DecimalText` keeps the bounds for callers, and each step here has its own.
fn put_decimals(out: &mut [u8], places: usize, unit: u64, rest: u64)
    requires { (length (decimals places rest) ≤ length out.old) × ((rest < unit) × (unit ≡ 10 ^ places)) }
    ensures { out.new ≡ overwritten (decimals places rest) out.old }
{
    if rest == 0 {
        return;
    }
    let unit = unit / 10;
    runs::put_digit(out, 0, rest / unit);
    put_decimals(&mut out[1..], places - 1, unit, rest % unit);
}

fn put_point(out: &mut [u8])
    requires { 0 < length out.old }
    ensures { out.new ≡ slice_set out.old 0 46 }
{
    out[0] = b'.';
}

// Writes a point and the decimals of `rest` over the first bytes of `out`, or nothing if `rest` is 0; `unit` is that of the place
// before the point.
fn put_part(out: &mut [u8], places: usize, unit: u64, rest: u64)
    requires { (length (pointed (decimals places rest)) ≤ length out.old) × ((rest < unit) × (unit ≡ 10 ^ places)) }
    ensures { out.new ≡ overwritten (pointed (decimals places rest)) out.old }
{
    if rest == 0 {
        return;
    }
    put_point(out);
    put_decimals(&mut out[1..], places, unit, rest);
}

// Fills `out` with `n` units of the last of the places, and spaces up to its end.
fn fill(out: &mut [u8], n: u64, places: usize)
    requires { (length (written places n) ≤ length out.old) × (places ≤ 18) }
    ensures { out.new ≡ padded (length out.old) (written places n) }
{
    let unit = 10u64.pow(places as u32);
    runs::put_spaces(out);
    let point = runs::put_figures(out, n / unit);
    put_part(&mut out[point..], places, unit, n % unit);
}

impl DecimalText {
    // Writes it, and spaces up to its width, at `at`.
    pub fn write(&self, out: &mut [u8], at: usize) -> Result<(), NoRoom>
        ensures { Puts (padded self.now.width (written self.now.places self.now.count)) out.old at result out.new }
    {
        let end = bytes::field_end(out.len(), at, self.width)?;
        fill(&mut out[at..end], self.count, self.places);
        Ok(())
    }
}
