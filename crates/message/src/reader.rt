// The fields of a message.
ghost use Rattle.std.specs.Prelude.{◌≡◌, ◌+◌, ◌<◌, ◌≤◌, length, MatchResult};
ghost use Rattle.message.specs.Reading.{field, value_at, tail_at};

use crate::fault::MessageFault;
use readers::Field;
use venue::Venue;

// The bytes of a field, unless it is cut short.
// Message and offset stay two arguments, here and above: a fault names its offset in the whole message, which a slice would
// not tell. So do offset and width: the one is the caller's, the other the field's.
fn part(m: &[u8], at: usize, width: usize) -> Result<&[u8], MessageFault>
    ensures { MatchResult result
        (λ f. (at + width ≤ length m.now) × (f.now ≡ field at width m.now))
        (λ e. (length m.now < at + width) × (e ≡ MessageFault.Miscounted at)) }
{
    m.get(at..)
        .and_then(|rest| rest.get(..width))
        .ok_or(MessageFault::Miscounted(at))
}

// The value of the field at `at`.
#[tactic(auto, using(crate::proofs::Readings::value_short), unfolding(crate::specs::Reading::value_at))]
pub fn value<F: Field>(m: &[u8], at: usize) -> Result<F, MessageFault>
    ensures { result ≡ value_at m.now F.WIDTH F.reads at }
{
    let bytes = part(m, at, F::WIDTH)?;
    F::read(bytes).ok_or(MessageFault::BadField(at))
}

// The terms in the tail at `at`.
#[tactic(auto, using(crate::proofs::Readings::tail_short), unfolding(crate::specs::Reading::tail_at))]
pub fn tail<V: Venue>(m: &[u8], at: usize) -> Result<V::Terms, MessageFault>
    ensures { result ≡ tail_at V.form m.now at }
{
    let bytes = part(m, at, V::width())?;
    V::read(bytes).map_err(|k| MessageFault::BadField(at + k))
}
