//! Laws of desks, hubs and ports.

ghost use Rattle.intake.specs.Agreement.{DesksAgree};
ghost use Rattle.intake.specs.Hub.{HubsRun};
ghost use Rattle.intake.specs.Ends.{EndsStay};

/// A desk agrees with all messages that it took: its machine is the one that `play` leaves after them; the messages
/// taken of an open port are the port's part of them, in order; and the outputs put into the port's outbox, followed by
/// those kept for it, are its share of the outputs of `play` since the port was added.
pub fn desks_agree()
    ensures { DesksAgree }
{}

/// As long as a hub's desk isn't closed, the desk agrees with all messages that the hub took since it began: its machine
/// is the one that `play` leaves after them, and each open port has its part of the messages and its share of the
/// outputs.
pub fn hubs_run()
    ensures { HubsRun }
{}

/// The end of an open port stays one until the port is closed, so that `left` can be asked of it at any time: after
/// messages and outputs went through it, after turns, also those that were refused or closed the desk, and after other
/// ports came and went.
pub fn ends_stay()
    ensures { EndsStay }
{}
