//! Counters of am_cells, added up by hand.
use am_cells::{Cell, Cells};
use std::test::Fail;

const MORE: Cell = Cell {
    count: 1_000_000_000_000,
    dcount: 2,
    sum: 5_000_000_000_000_000_000_000,
    dsum: 7,
};

// Three packets of block 7 of flow 1, of which the first has the delay bit, and one of block 8 of flow 0; and to these
// the packets of another table.
#[test]
fn packets_are_counted_in_their_cells(rt: HostRuntime) -> Result<(), Fail> {
    let mut cells = Cells::new(rt.alloc(), 2, 7, 9)?;
    cells.add(1, 7, true, 1_000_000_000);
    cells.add(1, 7, false, 2_000_000_000);
    cells.add(1, 7, false, 4_398_046_511_103);
    cells.add(0, 8, true, 0);
    let mut others = Cells::new(rt.alloc(), 2, 7, 9)?;
    assert!(rt; MORE.is_lawful());
    others.add_cell(0, 8, &MORE);
    cells.merge(&others);
    for (flow, block, count, sum, dcount, dsum) in [
        (0, 7, 0, 0, 0, 0),
        (1, 7, 3, 4_401_046_511_103, 1, 1_000_000_000),
        (0, 8, 1_000_000_000_001, 5_000_000_000_000_000_000_000, 3, 7),
    ] {
        let cell = cells.get(flow, block);
        assert!(rt; (cell.count, cell.sum) == (count, sum), "{flow} {block}");
        assert!(rt; cell.dcount == dcount && cell.dsum == dsum, "{flow}");
    }
    assert!(rt; cells.total() == 1_000_000_000_004);
    Ok(())
}
