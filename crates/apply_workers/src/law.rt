//! Laws of batches that are applied by groups. Each is the contract of a function that does nothing.

ghost use Rattle.apply_workers.specs.Schedules.{SchedulesAreTheBatch, PathsAreWithOneGroup, GroupsAreTaken};
ghost use Rattle.apply_workers.specs.ScheduleRows.{SchedulesAreWorked};

/// Whatever steps workers take, and in whatever order: when all groups are put back, state and outcomes are those of
/// applying the batch's transactions one after the other; and at any time each of their paths is with exactly one
/// group.
pub fn every_schedule()
    ensures batch { SchedulesAreTheBatch }
    ensures paths { PathsAreWithOneGroup }
{
    data_tree::law::footprints();
    data_tree::law::groups();
    data_tree::law::moved_cells();
    batcher::law::groups();
}

/// Schedules that were worked out by hand.
pub fn worked_schedules()
    ensures { SchedulesAreWorked }
{
    data_tree::law::footprints();
    every_schedule();
}

/// Taking the groups' cells from a state one group after the other takes the state's cells at each group's paths, and
/// leaves the state without them, since no two groups have a path in common.
pub fn groups_are_taken()
    ensures { GroupsAreTaken }
{
    data_tree::law::groups();
    data_tree::law::moved_cells();
    batcher::law::groups();
}
