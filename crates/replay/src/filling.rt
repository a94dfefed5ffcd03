// Bytes added to the held packet.
ghost use Rattle.std.specs.Prelude.{◌≡◌, ℕ, ◌+◌, ◌^◌, ◌<◌, ◌≤◌, [], ◌++◌, length, take, MatchOption, ◌≢◌, slice_index};
ghost use Rattle.replay.specs.Kept.{kept};

use crate::held::Held;
use packet::LONGEST;

impl Held {
    pub(crate) fn new() -> Held
        ensures { (result.count ≡ 0) × (kept result ≡ []) }
    {
        Held {
            bytes: [0; LONGEST],
            count: 0,
        }
    }

    // Stores as much of the piece as has room, and does not count it.
    fn store(&mut self, piece: &[u8])
        ensures same { self.new.count ≡ self.old.count }
        ensures stored { take (self.old.count + length piece.now) self.new.bytes ≡ take 49152 (kept self.old ++ piece.now) }
    {
        let at = self.count.min(LONGEST);
        let n = piece.len().min(LONGEST - at);
        self.bytes[at..at + n].copy_from_slice(&piece[..n]);
    }

    // Adds the piece, and counts what is past the room without storing it.
    pub(crate) fn fill(&mut self, piece: &[u8])
        requires { self.old.count + length piece.now < 2 ^ 64 }
        ensures count { self.new.count ≡ self.old.count + length piece.now }
        ensures kept { kept self.new ≡ take 49152 (kept self.old ++ piece.now) }
    {
        self.store(piece);
        self.count += piece.len();
    }
}

// The place of the first LF.
pub(crate) fn find_lf(piece: &[u8]) -> Option<usize>
    ensures { MatchOption result ((k : ℕ) → k < length piece.now → slice_index piece.now k ≢ 10)
        (λ i. (i < length piece.now) × (slice_index piece.now i ≡ 10) × ((k : ℕ) → k < i → slice_index piece.now k ≢ 10)) }
{
    memchr::memchr(b'\n', piece)
}
