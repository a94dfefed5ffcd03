// Pairs, times of day, order ids and makers.
ghost use Rattle.readers.specs.Values.{TextIs, text_value};
ghost use Rattle.readers.specs.Lawful.{text_law};
ghost use Rattle.readers.specs.Blanks.{text_filled};

use crate::field::{Field, Filled};
use fields::{Text, TextKind};

impl<K: TextKind<N>, const N: usize> Field for Text<K, N> {
    const WIDTH: usize = N;

    ghost WIDTH = { N };

    ghost laid = { TextIs N K.TextKind };

    ghost reads = { text_value N K.TextKind };

    ghost exact = { text_law N _ K.laws };

    fn read(bytes: &[u8]) -> Option<Text<K, N>> {
        Text::read(bytes).ok()
    }
}

impl<K: TextKind<N>, const N: usize> Filled for Text<K, N> {
    ghost filled = { text_filled N _ K.laws };
}
