// The packet being received.
ghost use Rattle.std.specs.Prelude.{◌≡◌, length};

use packet::LONGEST;

// Its first bytes, as many as the longest packet has, and how many bytes it has so far; those beyond are counted and not kept.
// An array and a count, and no Vec: the memory of the packet being received is fixed.
#[derive(Drop)]
pub struct Held {
    pub(crate) bytes: [u8; LONGEST],
    pub(crate) count: usize,
    ghost long: { length bytes ≡ 49152 },
}
