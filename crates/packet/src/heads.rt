// The checks that come before the layout: 11, 12 and 13.
ghost use Rattle.std.specs.Prelude.{◌≡◌, ℕ, ◌+◌, ◌<◌, ◌≤◌, length, Decides, MatchOption, slice_index};
ghost use Rattle.fields.specs.Bytes.{Printable};
ghost use Rattle.packet.specs.Layouts.{PrintableTo};
ghost use Rattle.packet.specs.Letters.{Letter, code};
ghost use Rattle.packet.specs.Verdict.{Headed};

use crate::packets::FormFault;

// The length of the longest packet, LF included.
pub const LONGEST: usize = 49_152;

// The offset of the first byte that is not printable.
// A loop with index, which stops at that byte: the form that the project asks for.
// The test of one byte stands in `fields` too, which does not publish it; one line is left in each.
pub fn first_unprintable(body: &[u8]) -> Option<usize>
    ensures { MatchOption result
        (PrintableTo body.now (length body.now))
        (λ at. (at < length body.now) × (Printable (slice_index body.now at) → ⊥) × PrintableTo body.now at) }
{
    for (i, b) in body.iter().enumerate() {
        if !(0x20..=0x7e).contains(b) {
            return Some(i);
        }
    }
    None
}

// Whether some packet begins with this letter.
#[tactic(auto, using(crate::proofs::Alike::told_by_code))]
fn is_letter(c: char) -> bool
    ensures { Decides result ((l : Letter) × (c ≡ code l)) }
{
    matches!(c, 'A' | 'E' | 'H' | 'J' | 'R' | 'S')
}

// The first byte, if there is one.
fn first(body: &[u8]) -> Option<char>
    ensures { MatchOption result (length body.now ≡ 0) (λ c. c ≡ slice_index body.now 0) }
{
    body.first().map(|b| char::from(*b))
}

// The letter of the packet that these bytes are, up to its LF.
// A `char`, which `layout` matches against char literals: the form that the project asks for.
pub fn head(body: &[u8]) -> Result<char, FormFault>
    ensures { Headed body.now result }
{
    if body.len() >= LONGEST {
        return Err(FormFault::TooLong);
    }
    if let Some(at) = first_unprintable(body) {
        return Err(FormFault::Unprintable(at));
    }
    match first(body) {
        Some(letter) if is_letter(letter) => Ok(letter),
        _ => Err(FormFault::NoLetter),
    }
}
