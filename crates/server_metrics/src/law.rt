//! Laws of the metrics. Each is the contract of a function that does nothing.

ghost use Rattle.server_metrics.specs.Rows.{WorkedRows};

/// The definitions, evaluated on rows that were worked out by hand.
pub fn worked_rows()
    ensures { WorkedRows }
{}
