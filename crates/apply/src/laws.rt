// The laws of messages and of snapshots.
ghost use Rattle.apply.specs.Laws.{SnapshotLaws};
ghost use Rattle.apply.specs.Reads.{MessageLaws};

use book::Terms;
use venue::Venue;

// Which orders stand after a snapshot.
pub fn snapshots_hold<T: Terms>()
    ensures { SnapshotLaws T }
{}

// Bytes lay out one message at most, and it is read exactly then.
pub fn messages_hold<V: Venue>()
    ensures { MessageLaws V.form }
{}
