// The whole of a packet.
ghost use Rattle.std.specs.Prelude.{◌≡◌, drop};
ghost use Rattle.packet.specs.Verdict.{Exact, Reads};

use crate::heads::head;
use crate::layouts::layout;
use crate::packets::{FormFault, Packet};

#[tactic(auto, using(crate::proofs::Forms::reads_from_matches))]
fn verdict(body: &[u8]) -> Result<Packet, FormFault>
    ensures { Reads body.now result }
{
    layout(head(body)?, body)
}

// The packet that these bytes, up to its LF, lay out, or the first check that fails.
#[tactic(auto, using(crate::proofs::Forms::exact_from_reads))]
pub fn read(body: &[u8]) -> Result<Packet, FormFault>
    ensures reads { Reads body.now result }
    ensures exact { Exact body.now result }
{
    verdict(body)
}

// The message of a sequenced packet: from offset 10 up to the LF.
pub fn message(body: &[u8]) -> &[u8]
    ensures { result.now ≡ drop 10 body.now }
{
    body.get(10..).unwrap_or(&[])
}
