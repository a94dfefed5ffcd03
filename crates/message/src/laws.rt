// The laws of the layouts, at every venue.
ghost use Rattle.message.specs.Laws.{LayoutLaws};

use venue::Venue;

// Bytes are read exactly where they lay out a message, and a fault names the check that fails first.
pub fn layouts_hold<V: Venue>()
    ensures { LayoutLaws V.form }
{}
