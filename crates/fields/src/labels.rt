// Order ids and makers.
ghost use Rattle.std.specs.Prelude.{Decides};
ghost use Rattle.fields.specs.Forms.{Labelled, labelled};
ghost use Rattle.fields.specs.Scripts.{label_laws};

use crate::bytes;
use crate::texts::{Text, TextKind};

// Whether `s` is `n` printable bytes, the first no space.
fn is_label(s: &[u8], n: usize) -> bool
    ensures { Decides result (Labelled n s.now) }
{
    if s.len() != n || n == 0 || digits::is_space(s[0]) {
        return false;
    }
    for b in s {
        if !bytes::is_printable(*b) {
            return false;
        }
    }
    true
}

// Labels: printable bytes, the first no space.
#[derive(Clone, Copy, PartialEq, Eq, Debug)]
pub struct LabelKind;

impl<const N: usize> TextKind<N> for LabelKind {
    ghost form = { Labelled N };

    ghost test = { labelled N };

    ghost laws = { label_laws N };

    fn is_text(bytes: &[u8]) -> bool {
        is_label(bytes, N)
    }
}

pub type Label<const N: usize> = Text<LabelKind, N>;

// The id of an order, equal only if all 15 bytes agree.
pub type OrderId = Label<15>;

// The name of a maker.
pub type Maker = Label<16>;
