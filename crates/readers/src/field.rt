// The fields of a layout.
ghost use Rattle.std.specs.Prelude.{◌≡◌, ℕ, List, Option};
ghost use Rattle.readers.specs.Laws.{BlankFree, FieldLaw};

// A value that stands in a field of fixed width.
// Three impls for the three types of `fields`: these share no trait there, and each has a law of its own.
pub trait Field: Sized {
    // How many bytes the field has.
    const WIDTH: usize;

    ghost WIDTH: { ℕ };

    // The bytes are the field of the value.
    ghost laid: { List ℕ → Self → Type 0 };

    // The value that the bytes are, or none.
    ghost reads: { List ℕ → Option Self };

    fn read(bytes: &[u8]) -> Option<Self>
        ensures { result ≡ reads bytes.now };

    ghost exact: { FieldLaw WIDTH laid reads };
}

// A field that is never all spaces, so that spaces can say that there is no value.
pub trait Filled: Field {
    ghost filled: { BlankFree Self.Field.laid };
}
