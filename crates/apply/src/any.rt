// Any message: its first byte is its letter, which says how the rest is read.
ghost use Rattle.std.specs.Prelude.{◌≡◌, ◌==◌, slice_get, slice_index};
ghost use Rattle.orders.specs.Applied.{Applies};
ghost use Rattle.apply.specs.Said.{message_of, said_by, summed};
ghost use Rattle.apply.specs.Meaning.{after, worked, Works};
ghost use Rattle.apply.specs.Reads.{Exactly};

use crate::messages::Message;
use crate::snapshots::{read_snapshot, work_snapshot};
use book::Book;
use message::MessageFault;
use venue::Venue;

// The first byte, if there is one: a `char` that is matched against char literals, as the packet's letter is.
fn letter(m: &[u8]) -> Option<char>
    ensures { result ≡ slice_get m.now 0 }
{
    m.first().map(|byte| *byte as char)
}

#[tactic(auto, unfolding(crate::specs::Said::message_of))]
fn read_any<V: Venue>(m: &[u8]) -> Result<Message<V::Terms>, MessageFault>
    ensures { result ≡ summed (message_of V.form m.now) }
{
    match letter(m) {
        Some('N') => Ok(Message::New(message::read_new::<V>(m)?)),
        Some('M') => Ok(Message::Modify(message::read_modify::<V>(m)?)),
        Some('X') => Ok(Message::Cancel(message::read_cancel(m)?)),
        Some('S') => read_snapshot::<V>(m),
        Some('T') => Ok(Message::Trade),
        Some('V') => Ok(Message::Volume),
        _ => Err(MessageFault::NoLetter),
    }
}

// The message that these bytes lay out at the venue, or the first fault. Nothing is applied.
pub fn read<V: Venue>(m: &[u8]) -> Result<Message<V::Terms>, MessageFault>
    ensures reads { result ≡ summed (message_of V.form m.now) }
    ensures exact { Exactly V.form m.now result }
{
    read_any::<V>(m)
}

// Whether the message's letter is S.
fn is_snapshot(m: &[u8]) -> bool
    ensures { result ≡ (slice_index m.now 0 == 83) }
{
    letter(m) == Some('S')
}

// Does to the book what the message says. A snapshot does nothing here: how many pairs it lists does not say which.
fn carry_out<V: Venue, B: Book<V::Terms>>(
    book: &mut B,
    message: &Message<V::Terms>,
) -> Result<(), MessageFault>
    ensures applied { Applies (after V.form (B.Book.capacity book.old) (B.Book.ladder book.old) (said_by message.now)) (B.Book.ladder book.old) result (B.Book.ladder book.new) }
    ensures kept { B.Book.capacity book.new ≡ B.Book.capacity book.old }
{
    match message {
        Message::New(order) => orders::apply_new::<V, B>(book, order),
        Message::Modify(change) => orders::apply_modify::<V, B>(book, change),
        Message::Cancel(cancel) => orders::apply_cancel::<V, B>(book, cancel),
        Message::Snapshot(_) | Message::Trade | Message::Volume => Ok(()),
    }
}

// The message that these bytes lay out at the venue, applied to the book; or the first fault, and the book as it was.
#[tactic(auto, using(crate::proofs::Working::works_snapshot, crate::proofs::Working::works_fault, crate::proofs::Working::works_told, crate::proofs::Working::works_refused))]
pub fn apply<V: Venue, B: Book<V::Terms>>(
    book: &mut B,
    m: &[u8],
) -> Result<Message<V::Terms>, MessageFault>
    ensures works { Works (worked V.form (B.Book.capacity book.old) (B.Book.ladder book.old) m.now) (B.Book.ladder book.old) result (B.Book.ladder book.new) }
    ensures kept { B.Book.capacity book.new ≡ B.Book.capacity book.old }
{
    if is_snapshot(m) {
        return work_snapshot::<V, B>(book, m);
    }
    let message = read::<V>(m)?;
    carry_out::<V, B>(book, &message)?;
    Ok(message)
}
