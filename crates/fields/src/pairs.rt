// Currency pairs.
ghost use Rattle.std.specs.Prelude.{ℕ, ◌+◌, ◌<◌, ◌≤◌, length, Decides, slice_index};
ghost use Rattle.fields.specs.Bytes.{Letter};
ghost use Rattle.fields.specs.Forms.{Paired, paired};
ghost use Rattle.fields.specs.Scripts.{pair_laws};

use crate::bytes;
use crate::texts::{Text, TextKind};

// Whether three letters stand at `at`.
fn letters_at(s: &[u8], at: usize) -> bool
    requires { at + 3 ≤ length s.now }
    ensures { Decides result ((i : ℕ) → i < 3 → Letter (slice_index s.now (at + i))) }
{
    s[at..at + 3].iter().all(|b| bytes::is_letter(*b))
}

// Whether `s` is three letters, a slash and three letters.
fn is_pair(s: &[u8]) -> bool
    ensures { Decides result (Paired s.now) }
{
    if s.len() != 7 || s[3] != b'/' {
        return false;
    }
    letters_at(s, 0) && letters_at(s, 4)
}

// Pairs: two currencies of three letters with a slash between them.
#[derive(Clone, Copy, PartialEq, Eq, Debug)]
pub struct PairKind;

impl TextKind<7> for PairKind {
    ghost form = { Paired };

    ghost test = { paired };

    ghost laws = { pair_laws };

    fn is_text(bytes: &[u8]) -> bool {
        is_pair(bytes)
    }
}

// A currency pair. Pairs are ordered by their bytes.
pub type Pair = Text<PairKind, 7>;
