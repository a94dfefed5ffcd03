// Decimals and integers of any width, as they stand in the bytes of a field.
#![tactic(auto)]

mod bytes;
mod decimal;
mod integer;
mod room;
mod runs;
mod texts;

pub use bytes::{field_end, is_space, put, put_blank};
pub use integer::read_integer;
pub use room::NoRoom;
pub use runs::spaces;
pub use texts::{DecimalForm, DecimalText, IntegerText};
