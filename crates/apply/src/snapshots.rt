// Snapshots, read and applied.
ghost use Rattle.std.specs.Prelude.{◌≡◌};
ghost use Rattle.std.specs.Option.{option_map_or};
ghost use Rattle.message.specs.Reading.{◌▷◌};
ghost use Rattle.snapshot.specs.declared.checks.Counts.{Counts};
ghost use Rattle.apply.specs.declared.messages.Message.TheVariants.{Snapshot};
ghost use Rattle.apply.specs.Checked.{Checked};
ghost use Rattle.apply.specs.Said.{is_blank_message, snapshot_said, summed};
ghost use Rattle.apply.specs.Meaning.{after, with_ladder, Works};

use crate::listing::Listing;
use crate::messages::Message;
use book::{Book, Terms};
use message::MessageFault;
use snapshot::Counts;
use venue::Venue;

// Whether the message is exactly the letter S, five spaces and the digit 0.
pub(crate) fn is_blank(m: &[u8]) -> bool
    ensures { result ≡ is_blank_message m.now }
{
    m == b"S     0".as_slice()
}

// How many pairs the snapshot lists and how many orders it puts, nothing if it is blank; or its first fault.
fn checked<V: Venue>(m: &[u8]) -> Result<Option<Counts>, MessageFault>
    ensures { Checked V.form m.now result }
{
    if m.len() < 7 {
        return Err(MessageFault::WrongLength);
    }
    if is_blank(m) {
        return Ok(None);
    }
    snapshot::check::<V>(m).map(Some)
}

// What is told of a snapshot: how many pairs it lists.
fn told<T: Terms>(counts: Option<Counts>) -> Message<T>
    ensures { result ≡ Snapshot (option_map_or (λ (n : Counts). n.pairs) counts 0) }
{
    Message::Snapshot(counts.map_or(0, |n| n.pairs))
}

// What a snapshot lists, or its first fault.
pub(crate) fn read_snapshot<V: Venue>(m: &[u8]) -> Result<Message<V::Terms>, MessageFault>
    ensures { result ≡ summed (snapshot_said V.form m.now) }
{
    Ok(told(checked::<V>(m)?))
}

// A snapshot is checked whole before anything is done.
pub(crate) fn work_snapshot<V: Venue, B: Book<V::Terms>>(
    book: &mut B,
    m: &[u8],
) -> Result<Message<V::Terms>, MessageFault>
    ensures works { Works (snapshot_said V.form m.now ▷ λ s. with_ladder V.form (B.Book.capacity book.old) (B.Book.ladder book.old) s (after V.form (B.Book.capacity book.old) (B.Book.ladder book.old) s)) (B.Book.ladder book.old) result (B.Book.ladder book.new) }
    ensures kept { B.Book.capacity book.new ≡ B.Book.capacity book.old }
{
    let counts = checked::<V>(m)?;
    if let Some(n) = counts {
        Listing::<V>::new(m, n).apply(book)?;
    }
    Ok(told(counts))
}
