// What a walk over a snapshot does at each mark.
ghost use Rattle.std.specs.Prelude.{ℕ, List};
ghost use Rattle.snapshot.specs.declared.mark.Mark.{Mark};

use crate::mark::Mark;
use book::Terms;

// A trait and no closure: a public function that calls a closure needs a `requires`, and no public function has one.
pub trait Task<T: Terms, S> {
    // What a visit makes of the state, in this message.
    ghost steps: { List ℕ → S → Mark T → S → Type 0 };

    fn visit(m: &[u8], state: &mut S, mark: &Mark<T>)
        ensures { steps m.now state.old mark.now state.new };
}
