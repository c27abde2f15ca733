//! The calls of a gate.
use crate::counter::Counter;
use crate::inputs::{
    CONFIG, HEAD, REQUEST, TWO_PORTS, assert_journal, concatenated, depot_of, ends_under,
};
use crate::watch::{Hold, Watch};
use std::alloc::Global;
use std::test::Fail;

// Requests in three windows: of port 1 in the first and the last, of port 2 between.
fn three_windows(alloc: Global) -> Result<Counter, Fail> {
    let at_1100 = [1, 0, 0, 0, 0xa0, 0x86, 1, 0];
    let at_1200 = [1, 0, 0, 0, 0x40, 0x0d, 3, 0];
    let first = concatenated(alloc, &[&REQUEST, &at_1200, &REQUEST[32..]])?;
    let second = concatenated(alloc, &[&HEAD, &at_1100, &REQUEST[32..]])?;
    Ok(depot_of(alloc, &CONFIG, &first, &second)?)
}

#[test]
fn each_frame_passes_the_gate(rt: HostRuntime) -> Result<(), Fail> {
    let mut depot = three_windows(rt.alloc())?;
    let gate = Watch::new(Hold::Nobody);
    let wanted = (b"frames 3 entries 6\n".as_slice(), 0);
    ends_under(&rt, rt.alloc(), &TWO_PORTS, &mut depot, &gate, wanted)?;
    assert_eq!(rt; gate.calls(), 101_102_201_202_111_112);
    assert_journal(
        &rt,
        &depot,
        "journal 2\n1000 tick\n1000 1 0 vlans\n1100 tick\n1100 2 0 vlans\n1200 tick\n\
        1200 1 1 vlans\n",
    );
    Ok(())
}
