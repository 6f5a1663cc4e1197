// How a row is made, and what it tells.
ghost use Rattle.std.specs.Prelude.{◌≡◌, length};
ghost use Rattle.plan.specs.Cells.{ports_of, planned};
ghost use Rattle.layout.specs.Contents.{no_scheduled};
ghost use Rattle.layout.specs.Sources.{TellsCell};
ghost use Rattle.sheet.specs.Rows.{scheduled};
ghost use Rattle.sheet.specs.Sheets.{Told};

use crate::row::Row;
use arrayvec::ArrayVec;
use layout::{CellFields, HopFields};
use plan::Cell;

// The row of no cell: by hand, since a type with a ghost field derives no default.
impl Default for Row {
    ghost is_default = { λ row. scheduled row ≡ no_scheduled };

    fn default() -> Row {
        Row {
            entry: 0,
            flow: 0,
            slack: 0,
            hops: ArrayVec::new(),
        }
    }
}

impl Row {
    // The row of a cell with its slack, sent in these slots.
    pub(crate) fn new(cell: Cell, slack: i32, slots: &[u32]) -> Row
        requires { length slots.now ≡ length (ports_of cell.route) }
        ensures { Told (planned cell) slack slots.now 0 (scheduled result) }
    {
        let route = cell.route();
        let ports = route.ports();
        let mut hops = ArrayVec::new();
        for (port, sent) in ports.iter().zip(slots) {
            hops.push(HopFields {
                port: *port,
                sent: *sent,
            });
        }
        Row {
            entry: cell.entry(),
            flow: cell.flow(),
            slack,
            hops,
        }
    }

    pub(crate) fn fields(&self) -> CellFields
        ensures { TellsCell result (scheduled self.now) }
    {
        CellFields {
            entry: self.entry,
            flow: self.flow,
            slack: self.slack,
            hops: self.hops.len(),
        }
    }
}
