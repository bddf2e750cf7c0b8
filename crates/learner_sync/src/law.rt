//! Laws of learners.

ghost use Rattle.jute.specs.Laws.{IsSound};
ghost use Rattle.learner_sync.specs.Images.{PartsAreTheImage};
ghost use Rattle.learner_sync.specs.Laws.{LogsAreFollowed, TruncatesToFronts, EpochsDontFall, DialectStays, ServingRises, ActsAccountForLog};
ghost use Rattle.learner_sync.specs.Records.{learner_info};
ghost use Rattle.learner_sync.specs.Rows.{WorkedRows};

/// The LearnerInfo format is sound: what is read was spelled so, a spelling is read whatever follows it, and what is
/// written is a spelling.
pub fn records()
    ensures { IsSound learner_info }
{}

/// The zxids of the log ascend, and the last zxid is the greater of the base's and that of the log's last transaction:
/// at the start, and whatever is learnt. So a TRUNC keeps a prefix of the log.
pub fn logs()
    ensures followed { LogsAreFollowed }
    ensures fronts { TruncatesToFronts }
{}

/// The accepted epoch never decreases.
pub fn epochs()
    ensures { EpochsDontFall }
{}

/// Leaders speak the same dialect, whatever is learnt.
pub fn dialects()
    ensures { DialectStays }
{}

/// While clients are served, each transaction has a zxid above the last one, and nothing else changes the learner.
pub fn serving()
    ensures { ServingRises }
{}

/// The acts of an item account for each change of the log and its base, and every packet to send can be written.
pub fn acts()
    ensures { ActsAccountForLog }
{}

/// A whole image has the same acts as its parts in order.
pub fn images()
    ensures { PartsAreTheImage }
{}

/// The definitions, evaluated on steps that were worked out by hand.
pub fn worked_rows()
    ensures { WorkedRows }
{}
