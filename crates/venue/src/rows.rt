// Values made again from plain rows.
ghost use Rattle.std.specs.Prelude.{◌≡◌};
ghost use Rattle.venue.specs.Rows.{quantity_given, maker_given, unknown};

use fields::{Maker, Quantity};

fn no_restriction() -> Quantity
    ensures { result.count ≡ 0 }
{
    Quantity::from_count(0).unwrap()
}

// The quantity of a count, or 0 where no quantity has it.
pub(crate) fn quantity_of(count: u64) -> Quantity
    ensures { result ≡ quantity_given count }
{
    Quantity::from_count(count).unwrap_or_else(no_restriction)
}

#[tactic(auto, using(crate::specs::Rows::unknown_labelled, fields::specs::Tests::labelled_decides))]
fn unknown_maker() -> Maker
    ensures { result.bytes ≡ unknown }
{
    Maker::read(&[b'?'; 16]).unwrap()
}

// The maker of these bytes, or the unknown one where they are no maker's.
pub(crate) fn maker_of(bytes: &[u8]) -> Maker
    ensures { result ≡ maker_given bytes.now }
{
    Maker::read(bytes).unwrap_or_else(|_| unknown_maker())
}
