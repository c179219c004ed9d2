//! Tables by hand, with memory that may run out: `tools/refused --test` refuses each request of these tests in turn.
use crate::{Call, Recording, Step, TableCell};
use std::alloc::Global;
use tbr_tagged::{CellAlign, OutOfMemory, UnicodeColumns};

const CELL: TableCell = TableCell {
    columns: 1,
    rows: 1,
    align: CellAlign::Left,
};

/// The columns of the border of a table of two cells in this much room.
fn border(alloc: Global, room: usize) -> Result<Option<usize>, OutOfMemory> {
    let mut recording = Recording::begun(alloc, usize::MAX);
    recording.add::<UnicodeColumns>(Step::Table, "")?;
    for text in ["Bread and cake", "two"] {
        recording.add::<UnicodeColumns>(Step::Cell(CELL), "")?;
        recording.add::<UnicodeColumns>(Step::Text, text)?;
        recording.add::<UnicodeColumns>(Step::EndCell, "")?;
    }
    recording.add::<UnicodeColumns>(Step::Row, "")?;
    recording.add::<UnicodeColumns>(Step::EndTable, "")?;
    let mut found = None;
    for drawn in &recording.draw(room)? {
        if let Call::Border(width) = drawn.call {
            found = Some(width);
        }
    }
    Ok(found)
}

#[test]
fn a_row_of_two_cells_or_no_memory(rt: HostRuntime) {
    for (room, width) in [(40, 18), (18, 18), (15, 15), (9, 9), (8, 8)] {
        match border(rt.alloc(), room) {
            Ok(found) => assert!(rt; found == Some(width)),
            Err(OutOfMemory) => {}
        }
    }
}
