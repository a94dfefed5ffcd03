// Why a packet is refused. The book's fault is inside the message's, and that inside the packet's.
ghost use Rattle.std.specs.Prelude.{◌≡◌};
ghost use Rattle.days.specs.declared.faults.PacketFault.TheVariants as fault;

use message::MessageFault;
use packet::FormFault;

#[derive(Clone, Copy, PartialEq, Eq, Debug)]
pub enum PacketFault {
    // The form is refused: 11, 12, 13, 15, 16.
    Form(FormFault),
    // The letter is not taken in the session's state: 14.
    NotTaken,
    // The message is refused: 21 to 33.
    Message(MessageFault),
}

// The layer of a fault, the first digit of its number.
#[derive(Clone, Copy, PartialEq, Eq, Debug)]
pub enum Layer {
    Packet,
    Message,
    Book,
}

impl From<FormFault> for PacketFault {
    ghost from_gives = { λ e r. r ≡ fault.Form e };

    fn from(form: FormFault) -> PacketFault {
        PacketFault::Form(form)
    }
}

impl From<MessageFault> for PacketFault {
    ghost from_gives = { λ e r. r ≡ fault.Message e };

    fn from(message: MessageFault) -> PacketFault {
        PacketFault::Message(message)
    }
}
