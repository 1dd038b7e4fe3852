//! `wb_cells`: the calls on one cell. The module `heaps` tests the calls that make a cell longer or shorter.

use std::test::Fail;
use wb_cells::Cells;
use wb_heap_model::heap::{Header, Kind, Ptr};

/// Whether the memory has 256 bytes, and the first place with room for a cell of 32 bytes is place 0.
fn has_room(cells: &Cells) -> bool {
    cells.held() == 256 && cells.first_fit(32) == 0
}

/// Whether the cell at place 0 with this header is the only live cell, and no free cell is left.
fn has_one(cells: &Cells, cell: Ptr, header: Header) -> bool {
    cells.header(cell) == Some(header)
        && cells.next_live(0) == Some(header)
        && cells.next_live(1).is_none()
        && cells.longest_gap() == 0
        && cells.top() == 32
}

/// Whether no cell is live, and the pointer names no cell.
fn has_none(cells: &Cells, cell: Ptr) -> bool {
    cells.header(cell).is_none() && cells.top() == 0
}

#[test]
fn a_cell_is_taken_written_and_given(rt: HostRuntime) -> Result<(), Fail> {
    let mut cells = Cells::new(rt.alloc());
    cells.reserve(256)?;
    assert!(rt; has_room(&cells));
    let header = Header {
        place: 0,
        length: 32,
        kind: Kind::Text,
        level: 2,
        number: 1,
    };
    cells.take(0, 32, header);
    let cell = Ptr {
        place: 0,
        number: 1,
    };
    assert!(rt; has_one(&cells, cell, header));
    cells.set_payload(cell, 1, 0x0005_0004);
    assert_eq!(rt; cells.payload(cell, 1), 0x0005_0004);
    assert_eq!(rt; cells.payload_half(cell, 3), 5);
    cells.set_payload_half(cell, 2, 7);
    assert_eq!(rt; cells.payload(cell, 1), 0x0005_0007);
    cells.write_halves(cell, 4, &[8, 9]);
    cells.copy_halves(cell, 4, cell, 5, 2);
    cells.zero_halves(cell, 4, 1);
    assert_eq!(rt; cells.payload(cell, 2), 0x0008_0000);
    cells.give(cell);
    assert!(rt; has_none(&cells, cell));
    Ok(())
}
