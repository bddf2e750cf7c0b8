//! The frames of a client that go to the engine together.

use connection_loop::{Gate, frames_going};
use settings::Dialect;
use std::test::Fail;

// A create2, whose body nobody reads here, and a getData of /a.
fn create2_and_get() -> &'static [u8] {
    b"\0\0\0\x09\0\0\0\x01\0\0\0\x0f\xff\0\0\0\x0f\0\0\0\x02\0\0\0\x04\0\0\0\x02/a\0"
}

#[test]
fn a_create2_is_for_the_leader_where_the_dialect_has_it(rt: HostRuntime) -> Result<(), Fail> {
    let bytes = create2_and_get();
    for (dialect, gate, wanted) in [
        // The read waits for the leader's answer.
        (Dialect::Zk38, Gate::Open, 1),
        (Dialect::Zk38, Gate::Narrow, 1),
        (Dialect::Zk38, Gate::Ahead, 2),
        // The engine answers both, in their turn.
        (Dialect::Zk34, Gate::Open, 2),
        (Dialect::Zk34, Gate::Narrow, 0),
        (Dialect::Zk34, Gate::Ahead, 2),
    ] {
        assert_eq!(rt; frames_going(dialect, bytes, 16, gate), wanted);
    }
    Ok(())
}
