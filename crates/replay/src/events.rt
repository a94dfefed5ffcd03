// What the log says of a packet.
ghost use Rattle.std.specs.Prelude.{◌≡◌, Some};
ghost use Rattle.packet.specs.Layouts.{LaidOut};
ghost use Rattle.replay.specs.Cutting.{last};
ghost use Rattle.replay.specs.Events.{packet_event, Reported, event_text, report_text};

use crate::cutter::Cutter;
use packet::{FormFault, Packet};
use std::fmt;

// A packet in form, as a line of the log tells it. It stands apart from the events of a day, which tell of messages and of a
// session, and from a packet as read, which holds the fields of its head: this first form of the log lists forms alone.
#[derive(Clone, Copy, PartialEq, Eq, Debug)]
pub enum Event {
    // A
    LoginAccepted,
    // J
    LoginRejected,
    // H
    Heartbeat,
    // E
    ErrorNotification,
    // S with nothing behind it
    EndOfSession,
    // R: so many pairs
    Directory(u64),
    // S with a message that begins with this byte
    Message(char),
}

// A packet by its place.
#[derive(Clone, Copy)]
pub struct Report {
    pub place: usize,
    pub outcome: Result<Event, FormFault>,
}

impl fmt::Display for Event {
    ghost output = { λ event. Some (event_text event) };

    fn fmt<W: fmt::Write>(&self, f: &mut fmt::Formatter<W>) -> fmt::Result {
        match self {
            Event::LoginAccepted => write!(f, "A"),
            Event::LoginRejected => write!(f, "J"),
            Event::Heartbeat => write!(f, "H"),
            Event::ErrorNotification => write!(f, "E"),
            Event::EndOfSession => write!(f, "end"),
            Event::Directory(pairs) => write!(f, "R {pairs}"),
            Event::Message(letter) => write!(f, "S {letter}"),
        }
    }
}

impl fmt::Display for Report {
    ghost output = { λ report. Some (report_text report) };

    fn fmt<W: fmt::Write>(&self, f: &mut fmt::Formatter<W>) -> fmt::Result {
        let place = self.place;
        match self.outcome {
            Ok(event) => write!(f, "{place} {event}"),
            Err(fault) => write!(
                f,
                "{place} fault {} packet {}",
                fault.number(),
                fault.offset()
            ),
        }
    }
}

// The event of a packet in form.
// No `From`: the letter of a message stands in the bytes, and not in the packet.
fn event_of(packet: Packet, body: &[u8]) -> Event
    requires { LaidOut body.now packet }
    ensures { result ≡ packet_event packet body.now }
{
    match packet {
        Packet::LoginAccepted(_) => Event::LoginAccepted,
        Packet::LoginRejected => Event::LoginRejected,
        Packet::Heartbeat => Event::Heartbeat,
        Packet::ErrorNotification => Event::ErrorNotification,
        Packet::EndOfSession => Event::EndOfSession,
        Packet::Sequenced(_) => Event::Message(char::from(body[10])),
        Packet::Directory(pairs) => Event::Directory(pairs.value()),
    }
}

fn outcome_of(body: &[u8]) -> Result<Event, FormFault>
    ensures { Reported (Some body.now) result }
{
    packet::read(body).map(|packet| event_of(packet, body))
}

// What the packet shows that the last take has ended; where none is held it was too long.
pub(crate) fn outcome(cutter: &Cutter) -> Result<Event, FormFault>
    ensures { Reported (last cutter.now) result }
{
    outcome_of(cutter.packet().ok_or(FormFault::TooLong)?)
}
