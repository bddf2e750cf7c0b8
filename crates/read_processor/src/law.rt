//! Laws of looks and of watches.

ghost use Rattle.read_processor.specs.Rows.{WorkedLooks, WorkedLater, WorkedWatches};

/// The definitions, evaluated on looks and watches that were worked out by hand.
pub fn worked_looks()
    ensures looks { WorkedLooks }
    ensures later { WorkedLater }
    ensures watches { WorkedWatches }
{}
