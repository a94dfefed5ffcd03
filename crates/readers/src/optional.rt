// Fields that may be blank.
ghost use Rattle.std.specs.Prelude.{◌≡◌, length, Decides};
ghost use Rattle.std.specs.List.{AllByRecursion};
ghost use Rattle.digits.specs.Bytes.{Space};
ghost use Rattle.readers.specs.Values.{optional_of, OptionalIs};
ghost use Rattle.readers.specs.Blanks.{optional_law};

use crate::field::{Field, Filled};

// Whether the bytes are `width` spaces.
fn is_blank(bytes: &[u8], width: usize) -> bool
    ensures { Decides result ((length bytes.now ≡ width) × AllByRecursion Space bytes.now) }
{
    bytes.len() == width && digits::spaces(bytes, 0)
}

// All spaces say that there is no value.
impl<F: Filled> Field for Option<F> {
    const WIDTH: usize = F::WIDTH;

    ghost WIDTH = { F.Field.WIDTH };

    ghost laid = { OptionalIs F.Field.WIDTH F.Field.laid };

    ghost reads = { optional_of F.Field.WIDTH F.Field.reads };

    ghost exact = { optional_law F.Field.WIDTH F.Field.laid F.Field.reads F.Filled.filled F.Field.exact };

    fn read(bytes: &[u8]) -> Option<Option<F>> {
        if is_blank(bytes, F::WIDTH) {
            return Some(None);
        }
        // `map(Some)` was tried here, and the proof did not close.
        let value = F::read(bytes)?;
        Some(Some(value))
    }
}
