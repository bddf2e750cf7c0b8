//! Laws of what a hasher is fed of a text. Each is the contract of a function that does nothing.

ghost use Rattle.pairs.specs.Laws.{AreFedApart};
ghost use Rattle.pairs.specs.Rows.{WorkedRows};

/// Different texts are fed as different words, so that only the hasher itself can make two texts collide.
pub fn texts_are_fed_apart()
    ensures { AreFedApart }
{}

/// The definitions, evaluated on rows that were worked out by hand.
pub fn worked_rows()
    ensures { WorkedRows }
{}
