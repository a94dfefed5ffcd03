// Times of day.
ghost use Rattle.std.specs.Prelude.{◌≡◌, ℕ, ◌+◌, ◌<◌, ◌≤◌, length, Decides, slice_index};
ghost use Rattle.digits.specs.Bytes.{Digit};
ghost use Rattle.fields.specs.Forms.{Timed, timed, two};
ghost use Rattle.fields.specs.Scripts.{time_laws};

use crate::texts::{Text, TextKind};

// Whether all bytes are digits. `digits` reads them and has no such test; its clauses have no index, which the form of a time needs.
fn all_digits(s: &[u8]) -> bool
    ensures { Decides result ((i : ℕ) → i < length s.now → Digit (slice_index s.now i)) }
{
    s.iter().all(|b| b.is_ascii_digit())
}

// Whether the two digits at `i` write at most `most`.
fn two_at_most(s: &[u8], i: usize, most: u8) -> bool
    requires { (i + 1 < length s.now) × (((k : ℕ) → k < length s.now → Digit (slice_index s.now k))) }
    ensures { Decides result (two s.now i ≤ most) }
{
    (s[i] - b'0') * 10 + (s[i + 1] - b'0') <= most
}

// Whether `s` is nine digits HHMMSSmmm of a time.
fn is_time(s: &[u8]) -> bool
    ensures { Decides result (Timed s.now) }
{
    if s.len() != 9 || !all_digits(s) {
        return false;
    }
    two_at_most(s, 0, 23) && two_at_most(s, 2, 59) && two_at_most(s, 4, 59)
}

// Times of day, HHMMSSmmm.
#[derive(Clone, Copy, PartialEq, Eq, Debug)]
pub struct TimeKind;

impl TextKind<9> for TimeKind {
    ghost form = { Timed };

    ghost test = { timed };

    ghost laws = { time_laws };

    fn is_text(bytes: &[u8]) -> bool {
        is_time(bytes)
    }
}

// A time of day.
pub type TimeOfDay = Text<TimeKind, 9>;
