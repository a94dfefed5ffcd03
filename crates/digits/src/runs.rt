// Runs of digits and of spaces.
ghost use Rattle.std.specs.Prelude.{◌≡◌, ◌+◌, ◌-◌, ◌*◌, ◌^◌, ◌<◌, ◌≤◌, ◌++◌, length, take, drop, replicate, decimal as figures, Decides, slice_index, slice_set};
ghost use Rattle.std.specs.List.{AllByRecursion};
ghost use Rattle.digits.specs.Bytes.{Digit, Space};
ghost use Rattle.digits.specs.Numerals.{front, read_on};
ghost use Rattle.digits.specs.Written.{overwritten};

use crate::bytes;

// One digit more after those of `n`.
fn append_digit(n: u64, digit: u8) -> u64
    requires { (Digit digit) × (n * 10 + 9 < 2 ^ 64) }
    ensures { result ≡ n * 10 + (digit - 48) }
{
    n * 10 + (digit - b'0') as u64
}

// The digits that `s` begins with, what stands behind them, and the number that the digits write after those of `n`.
pub(crate) fn read_digits(s: &[u8], n: u64) -> (&[u8], &[u8], u64)
    requires { (n + 1) * 10 ^ length s.now ≤ 10 ^ 18 }
    ensures digits { result.0.now ≡ front s.now }
    ensures whole { s.now ≡ result.0.now ++ result.1.now }
    ensures number { result.2 ≡ read_on n result.0.now }
    ensures bound { result.2 < (n + 1) * 10 ^ length result.0.now }
{
    let mut n = n;
    for (count, digit) in s.iter().enumerate() {
        if !digit.is_ascii_digit() {
            return (&s[..count], &s[count..], n);
        }
        n = append_digit(n, *digit);
    }
    (s, &s[s.len()..], n)
}

// How many spaces `s` begins with.
pub(crate) fn count_spaces(s: &[u8]) -> usize
    ensures within { result ≤ length s.now }
    ensures before { AllByRecursion Space (take result s.now) }
    ensures stops { result < length s.now → Space (slice_index s.now result) → ⊥ }
{
    s.iter().take_while(|b| bytes::is_space(**b)).count()
}

// Whether all bytes are spaces.
fn all_spaces(s: &[u8]) -> bool
    ensures { Decides result (AllByRecursion Space s.now) }
{
    for b in s {
        if !bytes::is_space(*b) {
            return false;
        }
    }
    true
}

// Whether all bytes from `from` on are spaces.
pub fn spaces(s: &[u8], from: usize) -> bool
    ensures { Decides result (AllByRecursion Space (drop from s.now)) }
{
    all_spaces(&s[from.min(s.len())..])
}

// Writes the digit `d` at `at`.
pub(crate) fn put_digit(out: &mut [u8], at: usize, d: u64)
    requires { (at < length out.old) × (d < 10) }
    ensures { out.new ≡ slice_set out.old at (48 + d) }
{
    out[at] = b'0' + d as u8;
}

// Writes the digits of `n` over the first bytes of `out`, and answers how many they are.
pub(crate) fn put_figures(out: &mut [u8], n: u64) -> usize
    requires { length (figures n) ≤ length out.old }
    ensures len { result ≡ length (figures n) }
    ensures text { out.new ≡ overwritten (figures n) out.old }
{
    if n < 10 {
        put_digit(out, 0, n);
        return 1;
    }
    let at = put_figures(out, n / 10);
    put_digit(out, at, n % 10);
    at + 1
}

// How many digits `n` has.
pub(crate) fn width(n: u64) -> usize
    ensures { result ≡ length (figures n) }
{
    n.checked_ilog10().unwrap_or(0) as usize + 1
}

// Makes all of `out` spaces.
pub(crate) fn put_spaces(out: &mut [u8])
    ensures { out.new ≡ replicate (length out.old) 32 }
{
    out.fill(b' ');
}
