//! Laws of replicas.

ghost use Rattle.replica.specs.Gathering.{TransactionsAreGathered};
ghost use Rattle.replica.specs.Laws.{LogsAreFollowed, ImagesComeInParts, DialectStays, ServingStays};

/// The tree is the base with the log applied: at the start, and whatever the leader sends.
pub fn logs()
    ensures { LogsAreFollowed }
{
    learner_sync::law::logs();
    learner_sync::law::acts();
}

/// An image is loaded part by part, apart from the tree, and its end does what the whole image does.
pub fn images()
    ensures { ImagesComeInParts }
{
    learner_sync::law::acts();
}

/// Leaders speak the same dialect, whatever they send.
pub fn dialects()
    ensures { DialectStays }
{
    learner_sync::law::dialects();
}

/// Clients that are served stay served until the leader is gone.
pub fn serving()
    ensures { ServingStays }
{
    learner_sync::law::serving();
}

/// An item that brings transactions does nothing but append at most one to the log, apply it, and tell its outcome.
pub fn gathering()
    ensures { TransactionsAreGathered }
{}
