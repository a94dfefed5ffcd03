// Why a message is refused. Offsets are counted in the message; the fault log counts them in the packet, 10 more.
ghost use Rattle.std.specs.Prelude.{◌≡◌};
ghost use Rattle.message.specs.declared.fault.MessageFault.TheVariants.{Book};

use book::BookFault;

// What the book refused, and where the message names the order.
#[derive(Clone, Copy, PartialEq, Eq, Debug)]
pub struct BookRefusal {
    pub fault: BookFault,
    pub at: usize,
}

#[derive(Clone, Copy, PartialEq, Eq, Debug)]
pub enum MessageFault {
    // No message begins with such a letter: 21.
    NoLetter,
    // No message of its letter has this length: 22.
    WrongLength,
    // The field at this offset is not in form: 23.
    BadField(usize),
    // The replaced id at this offset is filled, and there is no price: 24.
    Unpriced(usize),
    // A snapshot's count at this offset does not agree with its bytes: 25.
    Miscounted(usize),
    // The pair or the id at this offset repeats one before it: 26.
    Repeated(usize),
    // The book refuses what the message means: 31, 32, 33.
    Book(BookRefusal),
}

impl From<BookRefusal> for MessageFault {
    ghost from_gives = { λ e r. r ≡ Book e };

    fn from(refusal: BookRefusal) -> MessageFault {
        MessageFault::Book(refusal)
    }
}
