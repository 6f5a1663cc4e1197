// How a sheet is made.
ghost use Rattle.std.specs.Prelude.{◌≡◌, ◌≤◌, map, length};
ghost use Rattle.plan.specs.Cells.{planned, hops_in};
ghost use Rattle.sheet.specs.Rows.{scheduled};
ghost use Rattle.sheet.specs.Sheets.{RowsTold, OneTelling, Answers};

use crate::row::Row;
use crate::run::Run;
use crate::sheet::Sheet;
use arrayvec::ArrayVec;
use layout::Pile;
use plan::{Cell, Plan};
use refusal::Refusal;

// The rows of the cells: each with its slack and its part of the slots, which stand cell by cell along each route.
fn rows_of(cells: &[Cell], slacks: &[i32], slots: &[u32]) -> ArrayVec<Row, 256>
    requires cells_len_bound { (length cells.now ≤ 256) × (length cells.now ≤ length slacks.now) }
    requires cells_in_bounds { hops_in (map planned cells.now) ≤ length slots.now }
    ensures { RowsTold (map planned cells.now) slacks.now slots.now (map scheduled result.items) }
{
    let mut rows = ArrayVec::new();
    let mut rest = slots;
    for (cell, slack) in cells.iter().zip(slacks) {
        let (sent, behind) = rest.split_at(cell.route().ports().len());
        rows.push(Row::new(*cell, *slack, sent));
        rest = behind;
    }
    rows
}

impl Sheet {
    // The content of a file: the plan's ports and cells, each cell with its slack, and the slots in which the cells were
    // sent, cell by cell along each route.
    pub fn new(
        run: Run,
        pile: Pile,
        plan: &Plan,
        slacks: &[i32],
        slots: &[u32],
    ) -> Result<Sheet, Refusal>
        ensures answers { Answers run pile plan.now slacks.now slots.now result }
        ensures one { OneTelling }
    {
        let cells = plan.cells();
        let hops = plan.hops();
        if cells == 0 {
            return Err(Refusal::NoCells);
        }
        if slacks.len() < cells || slots.len() < hops {
            return Err(Refusal::NoPlace);
        }
        Ok(Sheet {
            run,
            pile,
            delays: ArrayVec::try_from(plan.delays()).unwrap(),
            rows: rows_of(plan.all_cells(), slacks, slots),
            hops,
        })
    }
}
