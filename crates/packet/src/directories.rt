// The directory: a number of pairs, and so many pairs.
ghost use Rattle.std.specs.Prelude.{◌≡◌, ℕ, ◌+◌, ◌*◌, ◌^◌, ◌<◌, ◌≤◌, length, Decides, MatchOption};
ghost use Rattle.fields.specs.Forms.{Paired};
ghost use Rattle.packet.specs.Layouts.{field};
ghost use Rattle.packet.specs.Verdict.{Matches};

use crate::packets::{FormFault, Packet};
use fields::{Integer, Pair};

// Whether the bytes are a pair in form.
fn is_pair(bytes: &[u8]) -> bool
    ensures { Decides result (Paired bytes.now) }
{
    Pair::read(bytes).is_ok()
}

// The first of the pairs from 5 on that is not in form.
fn first_bad_pair(body: &[u8]) -> Option<usize>
    requires { 5 ≤ length body.now }
    ensures { MatchOption result
        ((k : ℕ) → 5 + 7 * k + 7 ≤ length body.now → Paired (field (5 + 7 * k) 7 body.now))
        (λ k. (5 + 7 * k + 7 ≤ length body.now) × (Paired (field (5 + 7 * k) 7 body.now) → ⊥) × ((j : ℕ) → j < k → Paired (field (5 + 7 * j) 7 body.now))) }
{
    body[5..].chunks_exact(7).position(|pair| !is_pair(pair))
}

// The fault of the pair number k.
fn pair_fault(k: usize) -> FormFault
    requires { 5 + 7 * k < 2 ^ 64 }
    ensures { result ≡ FormFault.BadField (5 + 7 * k) }
{
    FormFault::BadField(5 + 7 * k)
}

// The length under 6 is tested first, then the number, then the length that it makes, then the pairs.
pub(crate) fn directory(body: &[u8]) -> Result<Packet, FormFault>
    ensures { Matches 82 body.now result }
{
    if body.len() < 5 {
        return Err(FormFault::WrongLength);
    }
    let pairs = Integer::<4>::read(&body[1..5]).map_err(|_| FormFault::BadField(1))?;
    let n = pairs.value() as usize;
    if body.len() != 5 + 7 * n {
        return Err(FormFault::WrongLength);
    }
    match first_bad_pair(body) {
        Some(k) => Err(pair_fault(k)),
        None => Ok(Packet::Directory(pairs)),
    }
}
