// Packets by their layouts, and why a form is refused.
use fields::{Integer, TimeOfDay};

// A packet of the server's side.
#[derive(Clone, Copy)]
pub enum Packet {
    // A: the login is accepted, with the number that it gives.
    LoginAccepted(Integer<10>),
    // J: the login is rejected.
    LoginRejected,
    // S with nothing behind it.
    EndOfSession,
    // S with a time and a message.
    Sequenced(TimeOfDay),
    // H
    Heartbeat,
    // E
    ErrorNotification,
    // R: so many pairs.
    Directory(Integer<4>),
}

// Why a packet's form is refused.
#[derive(Clone, Copy, PartialEq, Eq, Debug)]
pub enum FormFault {
    // Over 49,152 bytes: 11.
    TooLong,
    // The byte at this offset is not printable: 12.
    Unprintable(usize),
    // No packet begins with such a letter: 13.
    NoLetter,
    // No packet of its letter has this length: 15.
    WrongLength,
    // The field at this offset is not in form: 16.
    BadField(usize),
}
