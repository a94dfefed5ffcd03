// The test of a space, and bytes put into a buffer.
ghost use Rattle.std.specs.Prelude.{◌≡◌, ◌+◌, ◌<◌, ◌≤◌, replicate, Decides, MatchResult};
ghost use Rattle.digits.specs.Bytes.{Space};
ghost use Rattle.digits.specs.Calls.{Puts};

use crate::room::NoRoom;
use crate::runs;

pub fn is_space(b: u8) -> bool
    ensures { Decides result (Space b) }
{
    b == b' '
}

// Where a field of `width` bytes ends that begins at `at` of a buffer of `len` bytes.
pub fn field_end(len: usize, at: usize, width: usize) -> Result<usize, NoRoom>
    ensures { MatchResult result (λ end. (end ≡ at + width) × (end ≤ len)) (λ _. len < at + width) }
{
    at.checked_add(width)
        .filter(|end| *end <= len)
        .ok_or(NoRoom)
}

// Writes a text at `at`. The buffer and the offset stay two arguments, here and in all that writes: an offset past the end is
// refused by the call, where a slice from it could not be made.
pub fn put(out: &mut [u8], at: usize, text: &[u8]) -> Result<(), NoRoom>
    ensures { Puts text.now out.old at result out.new }
{
    let end = field_end(out.len(), at, text.len())?;
    out[at..end].copy_from_slice(text);
    Ok(())
}

// Writes `width` spaces at `at`.
pub fn put_blank(out: &mut [u8], at: usize, width: usize) -> Result<(), NoRoom>
    ensures { Puts (replicate width 32) out.old at result out.new }
{
    let end = field_end(out.len(), at, width)?;
    runs::put_spaces(&mut out[at..end]);
    Ok(())
}
