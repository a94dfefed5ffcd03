// The laws of the readings, as the contracts of functions that have nothing to do.
ghost use Rattle.readers.specs.Laws.{FieldLaw, ReaderLaws};
ghost use Rattle.readers.specs.Values.{optional_of, OptionalIs};

use crate::field::Filled;

// What each field reads is the value whose field the bytes are, and every such value is read.
pub fn readers_hold()
    ensures { ReaderLaws }
{}

// So it is of any field that may be blank.
pub fn optional_holds<F: Filled>()
    ensures { FieldLaw F.Field.WIDTH (OptionalIs F.Field.WIDTH F.Field.laid) (optional_of F.Field.WIDTH F.Field.reads) }
{}
