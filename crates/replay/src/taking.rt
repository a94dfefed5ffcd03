// Pieces of the stream, taken up to the first LF.
ghost use Rattle.std.specs.Prelude.{◌≡◌, ℕ, ◌+◌, ◌<◌, ◌≤◌, true, false, [], length, Some, None, MatchOption, MatchResult};
ghost use Rattle.replay.specs.Kept.{kept};
ghost use Rattle.replay.specs.Cutting.{stood, count, pending, last, taken, Takes};

use crate::cutter::{Cut, Cutter, TooMany};
use crate::filling::find_lf;
use crate::held::Held;

const STREAM_LIMIT: usize = 1_000_000_000_000;

impl Cutter {
    pub(crate) fn new() -> Cutter
        ensures { (taken result ≡ 0) × (pending result ≡ []) × (last result ≡ None) }
    {
        Cutter {
            held: Held::new(),
            before: 0,
            ended: false,
        }
    }

    // Begins the next packet where the last one has ended.
    fn turn(&mut self)
        ensures { (self.new.ended ≡ false) × (self.new.before ≡ stood self.old) × (self.new.held.count ≡ count self.old) × (kept self.new.held ≡ pending self.old) }
    {
        if self.ended {
            self.before += self.held.count;
            self.held.count = 0;
            self.ended = false;
        }
    }

    // The place of the held packet, which has ended after so many bytes of the piece.
    fn cut(&self, taken: usize) -> Cut
        ensures { (result.place ≡ self.now.before) × (result.taken ≡ taken) }
    {
        Cut {
            place: self.before,
            taken,
        }
    }

    // Takes a piece up to its first LF, which ends a packet, or whole where it has none.
    pub(crate) fn take(&mut self, piece: &[u8]) -> Result<Option<Cut>, TooMany>
        ensures { MatchResult result
            (λ a. (taken self.old + length piece.now ≤ 1000000000000) × Takes self.old piece.now a self.new)
            (λ _. (1000000000000 < taken self.old + length piece.now) × (self.new ≡ self.old)) }
    {
        if piece.len() > STREAM_LIMIT - (self.before + self.held.count) {
            return Err(TooMany);
        }
        self.turn();
        let Some(lf) = find_lf(piece) else {
            self.held.fill(piece);
            return Ok(None);
        };
        self.held.fill(&piece[..lf + 1]);
        self.ended = true;
        Ok(Some(self.cut(lf + 1)))
    }

    // The packet that the last take ended, without its LF; none where it did not end one, or one that is too long.
    pub(crate) fn packet(&self) -> Option<&[u8]>
        ensures { MatchOption result (last self.now ≡ None) (λ p. last self.now ≡ Some p.now) }
    {
        if !self.ended {
            return None;
        }
        let whole = self.held.bytes.get(..self.held.count)?;
        // No `split_last`: it gives none where no byte is held, and no clause here says that an ended packet holds its LF.
        Some(&whole[..whole.len().saturating_sub(1)])
    }

    // The place and length of the bytes after the last LF.
    pub(crate) fn rest(&self) -> (usize, usize)
        ensures { (result.0 ≡ stood self.now) × (result.1 ≡ count self.now) }
    {
        if self.ended {
            (self.before + self.held.count, 0)
        } else {
            (self.before, self.held.count)
        }
    }
}
