//! Laws. Each is the contract of a function that does nothing.

ghost use Rattle.following.specs.Searches.{EachRoundTriesEach, LostIsTriedLast, PausesAreBounded, RoundsInVainPause, RoundsInVainGrow, PausesAreWorked, ServedGoesOn, JitterIsATenth, HopelessAfterFive, ServedBeginsAnew};
ghost use Rattle.following.specs.Waits.{NoneIsGivenUpAtOnce, GivenUpAtSecondLook, SilentIsGivenUp, HeardIsKept, NoneIsServedPastItsSession, HeartbeatsAreEnough};
ghost use Rattle.following.specs.Plans.{NoneIsDueBefore, NoneIsDueAtNone};

/// As many tries as there are servers try each of them once; and a server that was lost is the last of the round that
/// follows.
pub fn rounds()
    ensures each { EachRoundTriesEach }
    ensures lost { LostIsTriedLast }
{}

/// No pause is longer than 2,200 ms, and as many tries as there are servers cost one of 100 ms at least if nobody was
/// served. The pause after such a round is half as long again as the one before, up to its bound. After a leader that
/// served clients for ten seconds the search goes on at once, and after one that hardly did, after 100 ms.
pub fn pauses()
    ensures bounded { PausesAreBounded }
    ensures vain { RoundsInVainPause }
    ensures growing { RoundsInVainGrow }
    ensures worked { PausesAreWorked }
    ensures served { ServedGoesOn }
    ensures jitter { JitterIsATenth }
{}

/// A search is hopeless exactly if five servers were refused, and no client was served since the first of them.
pub fn refusals()
    ensures hopeless { HopelessAfterFive }
    ensures served { ServedBeginsAnew }
{}

/// A leader is given up where it was silent for as long as the limit at two judgements, one right after the other, and
/// nowhere else.
pub fn second_looks()
    ensures first { NoneIsGivenUpAtOnce }
    ensures second { GivenUpAtSecondLook }
    ensures silent { SilentIsGivenUp }
    ensures heard { HeardIsKept }
{}

/// No leader may be silent for longer than three quarters of the least timeout, if that has two ticks or more; and none
/// is given up that is heard each half tick.
pub fn limits()
    ensures sessions { NoneIsServedPastItsSession }
    ensures heartbeats { HeartbeatsAreEnough }
{}

/// After a checkpoint none is due until the leader has sent more than makes one due; and none is due where none is
/// wanted.
pub fn due_checkpoints()
    ensures before { NoneIsDueBefore }
    ensures none { NoneIsDueAtNone }
{}
