// A stream of bytes that is cut into packets.
ghost use Rattle.std.specs.Prelude.{◌+◌, ◌≤◌};

use crate::held::Held;
use thiserror::Error;

// What was taken of the stream.
#[derive(Drop)]
pub struct Cutter {
    pub(crate) held: Held,
    // The stream's bytes before the held packet.
    pub(crate) before: usize,
    // The held packet has ended, and the next take begins another. A bool, and no enum with the packet in its variants, which
    // would move 49,152 bytes at each packet.
    pub(crate) ended: bool,
    ghost few: { before + held.count ≤ 1000000000000 },
}

// The place of a packet that has ended, and how many bytes of the piece were taken.
#[derive(Clone, Copy, PartialEq, Eq, Debug)]
pub struct Cut {
    pub place: usize,
    pub taken: usize,
}

// The stream would pass 1,000,000,000,000 bytes: 44.
#[derive(Clone, Copy, PartialEq, Eq, Debug, Error)]
#[error("over 1000000000000 bytes")]
pub struct TooMany;
