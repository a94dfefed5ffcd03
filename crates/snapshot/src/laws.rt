// The laws of snapshots, at every venue.
ghost use Rattle.snapshot.specs.Laws.{SnapshotLaws};

use venue::Venue;

// Bytes are read exactly where they lay out a snapshot, a fault names the check that fails first, and a snapshot is accepted exactly
// where it repeats nothing.
pub fn snapshots_laid<V: Venue>()
    ensures { SnapshotLaws V.form }
{}
