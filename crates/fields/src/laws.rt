// The laws of the fields, as the contracts of functions that have nothing to do.
ghost use Rattle.std.specs.Prelude.{◌≡◌, Decides};
ghost use Rattle.std.specs.Ordering.{nat_cmp};
ghost use Rattle.std.specs.Cmp.Lexicographic.{slice_cmp};
ghost use Rattle.fields.specs.Laws.{FieldLaws, DecimalCodec, TextCodec};

use crate::decimals::{Decimal, DecimalKind};
use crate::integers::Integer;
use crate::texts::{Text, TextKind};

// Bytes are one value's field at most, and what is written is read back as the value, for every field.
pub fn fields_hold()
    ensures { FieldLaws }
{}

// So it is for every kind of decimals, whichever keeps the laws of a kind.
pub fn decimals_hold<K: DecimalKind>()
    ensures { DecimalCodec K.DecimalKind }
{}

// So it is for every kind of texts.
pub fn texts_hold<K: TextKind<N>, const N: usize>()
    ensures { TextCodec N K.TextKind }
{}

// One function for each type: what each promises is proved of that type's own comparison.
// Two decimals of a kind are equal exactly when they are the same.
pub fn decimals_compared<K: DecimalKind>()
    ensures { (a b : Decimal K K.DecimalKind) → Decides (⟦<Decimal<K> as PartialEq>⟧.eq a b) (a ≡ b) }
{}

// Two texts of a kind are equal exactly when they are the same.
pub fn texts_compared<K: TextKind<N>, const N: usize>()
    ensures { (a b : Text K N K.TextKind) → Decides (⟦<Text<K, N> as PartialEq>⟧.eq a b) (a ≡ b) }
{}

// Texts of a kind are ordered by their bytes: the first that differs decides.
pub fn texts_ordered<K: TextKind<N>, const N: usize>()
    ensures { (a b : Text K N K.TextKind) → ⟦<Text<K, N> as Ord>⟧.cmp a b ≡ slice_cmp nat_cmp a.bytes b.bytes }
{}

// Two integers of a width are equal exactly when they are the same.
pub fn integers_compared<const W: usize>()
    ensures { (a b : Integer W) → Decides (⟦<Integer<W> as PartialEq>⟧.eq a b) (a ≡ b) }
{}
