//! The law of groups that are applied separately.

ghost use Rattle.apply_workers.specs.Homing.{GroupsComeHome};

/// If each group of a batch is applied to its own cells, which are taken one group after the other and put back so, and
/// the timeouts are set in the batch's order, the result is the state after the batch; and each group has its share of
/// the batch's outcomes. It does nothing.
pub fn groups_come_home()
    ensures { GroupsComeHome }
{
    data_tree::law::groups();
    data_tree::law::moved_cells();
    batcher::law::groups();
}
