// What the fault log shows of a fault.
ghost use Rattle.std.specs.Prelude.{◌≡◌};
ghost use Rattle.message.specs.Faults.{number, within, offset};

use crate::fault::MessageFault;

// The offset in the packet at which its message begins.
const MESSAGE_AT: usize = 10;

impl MessageFault {
    // Its number in the table of refusals. No `From` for a number: which number it is, is for the name to say; and no trait over
    // the refusals that have one: no code takes any one of them.
    pub fn number(&self) -> u8
        ensures { result ≡ number self.now }
    {
        match self {
            MessageFault::NoLetter => 21,
            MessageFault::WrongLength => 22,
            MessageFault::BadField(_) => 23,
            MessageFault::Unpriced(_) => 24,
            MessageFault::Miscounted(_) => 25,
            MessageFault::Repeated(_) => 26,
            MessageFault::Book(refusal) => refusal.fault.number(),
        }
    }

    // Where in the message it lies.
    pub fn within(&self) -> usize
        ensures { result ≡ within self.now }
    {
        match self {
            MessageFault::NoLetter | MessageFault::WrongLength => 0,
            MessageFault::BadField(at) | MessageFault::Unpriced(at) => *at,
            MessageFault::Miscounted(at) | MessageFault::Repeated(at) => *at,
            MessageFault::Book(refusal) => refusal.at,
        }
    }

    // The packet offset that it names.
    pub fn offset(&self) -> usize
        ensures { result ≡ offset self.now }
    {
        MESSAGE_AT.saturating_add(self.within())
    }
}
