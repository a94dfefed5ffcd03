// What is told of a packet.
use crate::faults::PacketFault;
use fields::{OrderId, Pair};

// An accepted packet. Of a message its letter is told, of N, M and X also the pair and the id, and of S the number of pairs.
// No `Message` of `apply` in it: that one carries the venue's terms, and an event is one type at every venue.
#[derive(Clone, Copy)]
pub enum Event {
    // A
    LoginAccepted,
    // J
    LoginRejected,
    // S with nothing behind it.
    EndOfSession,
    // H
    Heartbeat,
    // E
    ErrorNotification,
    // R: the number of pairs.
    Directory(usize),
    // S N: the pair and the id.
    New(Pair, OrderId),
    // S M: the pair and the active id.
    Modify(Pair, OrderId),
    // S X: the pair and the id.
    Cancel(Pair, OrderId),
    // S S: the number of pairs, 0 if blank.
    Snapshot(usize),
    // S T
    Trade,
    // S V
    Volume,
}

// One packet's report: how many of the stream's bytes stand before it, and an event or a fault.
#[derive(Clone, Copy)]
pub struct Report {
    pub place: u64,
    pub outcome: Result<Event, PacketFault>,
}
