// The fields of the line: each value is made from the bytes of its field, or refused, and is written back to them.
#![tactic(auto)]

mod bytes;
mod decimals;
mod fault;
mod integers;
mod kinds;
mod labels;
pub mod laws;
mod pairs;
mod texts;
mod times;

pub use decimals::{Decimal, DecimalKind};
pub use fault::Fault;
pub use integers::Integer;
pub use kinds::{Amount, AmountKind, Price, PriceKind, Quantity, QuantityKind};
pub use labels::{Label, LabelKind, Maker, OrderId};
pub use pairs::{Pair, PairKind};
pub use texts::{Text, TextKind};
pub use times::{TimeKind, TimeOfDay};
