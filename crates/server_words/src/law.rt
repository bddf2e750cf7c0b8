//! Laws of the answers. Each is the contract of a function that does nothing.

ghost use Rattle.server_words.specs.Rows.{WorkedRows};

/// The definitions, evaluated on rows that were worked out by hand.
pub fn worked_rows()
    ensures { WorkedRows }
{}
