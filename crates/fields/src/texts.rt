// Fields that are kept as their bytes: labels, pairs and times of day.
ghost use Rattle.std.specs.Prelude.{◌≡◌, ⊤, ℕ, Bool, true, List, Decides, ◌==◌};
ghost use Rattle.std.specs.Cmp.{partial_order_from_own_ties};
ghost use Rattle.std.specs.Cmp.Lexicographic.{pointwise, slice_cmp};
ghost use Rattle.std.specs.Cmp.Rules.{comparing};
ghost use Rattle.std.specs.Ordering.{as_partial_cmp, nat_cmp, on};
ghost use Rattle.std.proofs.Common.{rules};
ghost use Rattle.fields.specs.Calls.{Found, Reads, Writes};
ghost use Rattle.fields.specs.Texts.{Kept, TextLaws};

use crate::bytes;
use crate::fault::Fault;
use std::alloc::AllocError;
use std::cmp::Ordering;
use std::marker::PhantomData;

// A kind of texts of `N` bytes: which bytes are such a text.
pub trait TextKind<const N: usize> {
    // The form in words, and the test of it.
    ghost form: { List ℕ → Type 0 };

    ghost test: { List ℕ → Bool };

    fn is_text(bytes: &[u8]) -> bool
        ensures { Decides result (form bytes.now) };

    ghost laws: { TextLaws N form test };
}

// A text of a kind.
#[derive_where(Eq, Debug)]
pub struct Text<K: TextKind<N>, const N: usize> {
    bytes: [u8; N],
    #[derive_where(skip)]
    kind: PhantomData<K>,
    ghost ok: { K.test bytes ≡ true },
}

// Written out: no derive gives `Clone` to a struct with a ghost field and a type parameter. `Ok(*self)`, as decimals have it, was
// tried: the check does not cover that copy out of a reference for this struct.
impl<K: TextKind<N>, const N: usize> Copy for Text<K, N> {}

impl<K: TextKind<N>, const N: usize> Clone for Text<K, N> {
    ghost is_clone = { λ x y. y ≡ x };

    ghost is_infallible = { λ _. ⊤ };

    fn clone(&self) -> Result<Text<K, N>, AllocError> {
        Ok(Text {
            bytes: self.bytes,
            kind: PhantomData,
        })
    }
}

// Equal only if all bytes agree. Written out for `same`, as for decimals: see there.
impl<K: TextKind<N>, const N: usize> PartialEq for Text<K, N> {
    ghost eq = { on (λ v. v.bytes) (pointwise ◌==◌) };

    ghost laws = { Prim.search (comparing, rules) };

    fn eq(&self, other: &Text<K, N>) -> bool
        ensures value { result ≡ pointwise ◌==◌ self.now.bytes other.now.bytes }
        ensures same { Decides result (self.now ≡ other.now) }
    {
        bytes::same_bytes(&self.bytes, &other.bytes)
    }
}

impl<K: TextKind<N>, const N: usize> PartialOrd for Text<K, N> {
    ghost partial_cmp = { as_partial_cmp (on (λ v. v.bytes) (slice_cmp nat_cmp)) };

    ghost laws = { partial_order_from_own_ties (Prim.search (comparing, rules)) (Prim.search (comparing, rules)) };

    fn partial_cmp(&self, other: &Text<K, N>) -> Option<Ordering> {
        Some(self.cmp(other))
    }
}

// In byte order: the first byte that differs decides. Written out, since a derived order takes twice as long.
impl<K: TextKind<N>, const N: usize> Ord for Text<K, N> {
    ghost cmp = { on (λ v. v.bytes) (slice_cmp nat_cmp) };

    ghost total = { Prim.search (comparing, rules) };

    ghost matches_partial_cmp = { Prim.search (comparing, rules) };

    ghost matches_eq = { Prim.search (comparing, rules) };

    fn cmp(&self, other: &Text<K, N>) -> Ordering {
        Ord::cmp(&self.bytes, &other.bytes)
    }
}

// The text that the bytes are.
fn find<K: TextKind<N>, const N: usize>(bytes: &[u8]) -> Option<Text<K, N>>
    ensures { Found (Kept K.form) (λ (t : Text K N K.TextKind). t.bytes) bytes.now result }
{
    if !K::is_text(bytes) {
        return None;
    }
    let bytes = <[u8; N]>::try_from(bytes).ok()?;
    Some(Text {
        bytes,
        kind: PhantomData,
    })
}

impl<K: TextKind<N>, const N: usize> Text<K, N> {
    // The text whose field the bytes are. No `TryFrom`, as for decimals: see there.
    pub fn read(bytes: &[u8]) -> Result<Text<K, N>, Fault>
        ensures { Reads (Kept K.form) (λ (t : Text K N K.TextKind). t.bytes) bytes.now result }
    {
        find::<K, N>(bytes).ok_or(Fault::NotInForm)
    }

    // Writes it to its field at `at`.
    pub fn write(&self, out: &mut [u8], at: usize) -> Result<(), Fault>
        ensures { Writes self.now.bytes out.old at result out.new }
    {
        bytes::put(out, at, &self.bytes)
    }

    // Its bytes. No `From` for them: it would hide that they are a field.
    pub fn bytes(&self) -> [u8; N]
        ensures { result ≡ self.now.bytes }
    {
        self.bytes
    }
}
