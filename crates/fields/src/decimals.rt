// Decimals of a fixed width: prices, amounts and quantities.
ghost use Rattle.std.specs.Prelude.{◌≡◌, ⊤, ℕ, Bool, ◌≤◌, true, List, replicate, Decides, ◌==◌};
ghost use Rattle.std.specs.Cmp.Rules.{comparing};
ghost use Rattle.std.specs.Ordering.{on};
ghost use Rattle.std.proofs.Common.{rules};
ghost use Rattle.digits.specs.Calls.{Only};
ghost use Rattle.fields.specs.Calls.{Found, Makes, Reads, Writes};
ghost use Rattle.fields.specs.Decimals.{Blank, CountText, KindLaws};
ghost use Rattle.fields.specs.Ranges.{between};

use crate::fault::Fault;
use digits::{DecimalForm, DecimalText};
use std::alloc::AllocError;
use std::marker::PhantomData;

// A kind of decimals: how wide its field is, how many places it may have, and which counts of the last place.
pub trait DecimalKind {
    const WIDTH: usize;

    const PLACES: usize;

    const LEAST: u64;

    const MOST: u64;

    ghost WIDTH: { ℕ };

    ghost PLACES: { ℕ };

    ghost LEAST: { ℕ };

    ghost MOST: { ℕ };

    // Whether a value may have the count.
    ghost may: { ℕ → Bool };

    // The bytes are the field of a value of this count.
    ghost field: { List ℕ → ℕ → Type 0 };

    // What is written of the count.
    ghost text: { ℕ → List ℕ };

    ghost laws: { KindLaws WIDTH PLACES LEAST MOST may field text };
}

// A decimal of a kind, counted in units of its last place. No `Model`: in the definitions a price is a value within its range, and
// a number alone would leave that out of every theorem on orders. So it is for texts and integers.
#[derive_where(Eq, Debug)]
pub struct Decimal<K: DecimalKind> {
    count: u64,
    #[derive_where(skip)]
    kind: PhantomData<K>,
    ghost ok: { K.may count ≡ true },
}

// Written out: no derive gives `Clone` to a struct with a ghost field and a type parameter.
impl<K: DecimalKind> Copy for Decimal<K> {}

impl<K: DecimalKind> Clone for Decimal<K> {
    ghost is_clone = { λ x y. y ≡ x };

    ghost is_infallible = { λ _. ⊤ };

    fn clone(&self) -> Result<Decimal<K>, AllocError> {
        Ok(*self)
    }
}

// Written out for `same`: a derived `eq` promises only that the counts are compared.
impl<K: DecimalKind> PartialEq for Decimal<K> {
    ghost eq = { on (λ v. v.count) ◌==◌ };

    ghost laws = { Prim.search (comparing, rules) };

    fn eq(&self, other: &Decimal<K>) -> bool
        ensures value { result ≡ (self.now.count == other.now.count) }
        ensures same { Decides result (self.now ≡ other.now) }
    {
        PartialEq::eq(&self.count, &other.count)
    }
}

// Whether `n` lies between two bounds, both included.
fn lies_between(least: u64, most: u64, n: u64) -> bool
    ensures { result ≡ between least most n }
{
    (least..=most).contains(&n)
}

// The count 0, where the bytes are `width` spaces. The shared part of this test and the one of blank fields in `readers` is
// `digits::spaces`; one line is left in each.
fn zero_in(bytes: &[u8], width: usize) -> Option<u64>
    ensures { Only (λ n. Blank width bytes.now × (n ≡ 0)) result }
{
    (bytes.len() == width && digits::spaces(bytes, 0)).then_some(0)
}

// Writes `width` spaces at `at`.
fn put_blank(out: &mut [u8], at: usize, width: usize) -> Result<(), Fault>
    ensures { Writes (replicate width 32) out.old at result out.new }
{
    Ok(digits::put_blank(out, at, width)?)
}

// The count that the bytes write; spaces write 0.
fn count_in<K: DecimalKind>(bytes: &[u8]) -> Option<u64>
    ensures { Only (CountText K.WIDTH K.PLACES bytes.now) result }
{
    let form = DecimalForm {
        width: K::WIDTH,
        places: K::PLACES,
    };
    if let Some(zero) = zero_in(bytes, K::WIDTH) {
        return Some(zero);
    }
    form.find(bytes)
}

// The value whose field the bytes are.
fn find<K: DecimalKind>(bytes: &[u8]) -> Option<Decimal<K>>
    ensures { Found K.field (λ (d : Decimal K K.DecimalKind). d.count) bytes.now result }
{
    Decimal::from_count(count_in::<K>(bytes)?)
}

impl<K: DecimalKind> Decimal<K> {
    // The value whose field the bytes are. `read` and `write` are a pair whose contracts are clauses, and a `TryFrom` would hide
    // that the bytes are a field.
    pub fn read(bytes: &[u8]) -> Result<Decimal<K>, Fault>
        ensures { Reads K.field (λ (d : Decimal K K.DecimalKind). d.count) bytes.now result }
    {
        find::<K>(bytes).ok_or(Fault::NotInForm)
    }

    // Writes it to its field at `at`.
    pub fn write(&self, out: &mut [u8], at: usize) -> Result<(), Fault>
        ensures { Writes (K.text self.now.count) out.old at result out.new }
    {
        if self.count == 0 {
            return put_blank(out, at, K::WIDTH);
        }
        let (count, width, places) = (self.count, K::WIDTH, K::PLACES);
        let text = DecimalText {
            count,
            width,
            places,
        };
        Ok(text.write(out, at)?)
    }

    // The value of this count. No `TryFrom`, and no `From` for `count`: the names say in which unit the number is.
    pub fn from_count(count: u64) -> Option<Decimal<K>>
        ensures { Makes (λ n. K.may n ≡ true) (λ (d : Decimal K K.DecimalKind). d.count) count result }
    {
        if lies_between(K::LEAST, K::MOST, count) {
            Some(Decimal {
                count,
                kind: PhantomData,
            })
        } else {
            None
        }
    }

    // In units of the last place.
    pub fn count(&self) -> u64
        ensures { result ≡ self.now.count }
    {
        self.count
    }
}
