//! What a port's thread tells the hub beside messages.
use port_hints::Marks;
use std::alloc::Global;
use std::test::Fail;

// Opens and closes so many ports, one after the other, to each of which more is put than is written. Returns the most
// slots that were taken at a time, and how many bytes are under way in the end.
fn come_and_go(alloc: Global, ports: usize) -> Result<(usize, u64), Fail> {
    let mut marks = Marks::new(alloc)?;
    let mut most = 0;
    for number in 1..ports {
        let (slot, mark) = marks.add(number)?;
        most = slot.saturating_add(1).max(most);
        marks.add_put(100);
        mark.wrote(60);
        marks.remove(slot, 100);
    }
    Ok((most, marks.under_way()))
}

#[test]
fn a_closed_port_leaves_no_trace(rt: HostRuntime) -> Result<(), Fail> {
    let (slots, under_way) = come_and_go(rt.alloc(), 1000)?;
    assert_eq!(rt; slots, 1);
    assert_eq!(rt; under_way, 0);
    Ok(())
}
