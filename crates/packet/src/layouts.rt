// The readers of the layouts. Each gets the bytes up to the LF, the letter at 0, and reads the fields behind it.
// `map_err` to `BadField` stands at each field, also in the directory: the readers are three types', no trait's here, and a helper
// that took their answer would do no more than `map_err`.
ghost use Rattle.std.specs.Prelude.{◌≡◌, length, MatchResult, ◌≢◌};
ghost use Rattle.packet.specs.Verdict.{Matches};

use crate::directories::directory;
use crate::packets::{FormFault, Packet};
use fields::{Integer, TimeOfDay};

// A packet that has this many bytes and no field.
fn fixed(packet: Packet, len: usize, body: &[u8]) -> Result<Packet, FormFault>
    ensures { MatchResult result
        (λ p. (p ≡ packet) × (length body.now ≡ len))
        (λ f. (f ≡ FormFault.WrongLength) × (length body.now ≢ len)) }
{
    if body.len() != len {
        return Err(FormFault::WrongLength);
    }
    Ok(packet)
}

fn login_accepted(body: &[u8]) -> Result<Packet, FormFault>
    ensures { Matches 65 body.now result }
{
    if body.len() != 11 {
        return Err(FormFault::WrongLength);
    }
    Integer::<10>::read(&body[1..11])
        .map(Packet::LoginAccepted)
        .map_err(|_| FormFault::BadField(1))
}

fn sequenced(body: &[u8]) -> Result<Packet, FormFault>
    ensures { Matches 83 body.now result }
{
    if body.len() == 1 {
        return Ok(Packet::EndOfSession);
    }
    if body.len() < 11 {
        return Err(FormFault::WrongLength);
    }
    TimeOfDay::read(&body[1..10])
        .map(Packet::Sequenced)
        .map_err(|_| FormFault::BadField(1))
}

// The packet of this letter that the bytes, with the letter, lay out.
pub fn layout(letter: char, body: &[u8]) -> Result<Packet, FormFault>
    ensures { Matches letter body.now result }
{
    match letter {
        'A' => login_accepted(body),
        'J' => fixed(Packet::LoginRejected, 21, body),
        'S' => sequenced(body),
        'H' => fixed(Packet::Heartbeat, 1, body),
        'E' => fixed(Packet::ErrorNotification, 101, body),
        'R' => directory(body),
        _ => Err(FormFault::NoLetter),
    }
}
