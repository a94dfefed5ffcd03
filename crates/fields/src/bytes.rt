// Tests of single bytes, and bytes put into a buffer.
ghost use Rattle.std.specs.Prelude.{◌≡◌, ℕ, ◌<◌, length, Decides, slice_index};
ghost use Rattle.fields.specs.Bytes.{Letter, Printable};
ghost use Rattle.fields.specs.Calls.{Writes};

use crate::fault::Fault;

pub(crate) fn is_letter(b: u8) -> bool
    ensures { Decides result (Letter b) }
{
    b.is_ascii_uppercase()
}

pub(crate) fn is_printable(b: u8) -> bool
    ensures { Decides result (Printable b) }
{
    matches!(b, 0x20..=0x7e)
}

// Whether two texts have the same bytes. Of slices, which `==` compares faster than arrays.
pub(crate) fn same_bytes(a: &[u8], b: &[u8]) -> bool
    ensures { Decides result (a.now ≡ b.now) }
{
    a == b
}

// Writes a text at `at`: `digits::put`, with its fault lifted into a field's.
pub(crate) fn put(out: &mut [u8], at: usize, text: &[u8]) -> Result<(), Fault>
    ensures { Writes text.now out.old at result out.new }
{
    Ok(digits::put(out, at, text)?)
}
