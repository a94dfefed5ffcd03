// Which decimals are read, and which numbers are written: each with the fact that its field can hold it.
ghost use Rattle.std.specs.Prelude.{◌+◌, ◌≤◌, length, decimal as figures};
ghost use Rattle.digits.specs.Written.{written};

// Decimals in `width` bytes, with at most `places` places.
#[derive(Clone, Copy)]
pub struct DecimalForm {
    pub width: usize,
    pub places: usize,
    ghost small: { width + places ≤ 18 },
}

// `count` units of the last of the places, at the left of `width` bytes.
#[derive(Clone, Copy)]
// No `DecimalForm` in it: that one bounds the width, and a text has no such bound.
pub struct DecimalText {
    pub count: u64,
    pub width: usize,
    pub places: usize,
    ghost fits: { length (written places count) ≤ width },
    ghost few: { places ≤ 18 },
}

// `value` at the right of `width` bytes.
#[derive(Clone, Copy)]
pub struct IntegerText {
    pub value: u64,
    pub width: usize,
    ghost fits: { length (figures value) ≤ width },
}
