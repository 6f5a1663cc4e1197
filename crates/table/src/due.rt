// A cell that waits at a port and is due.
ghost use Rattle.table.specs.Kinds.{due_upto};
ghost use Rattle.table.specs.Lexical.{due_lawful};

use crate::order::Ordered;

// The slot in which a cell is due at the port where it waits. A due slot may lie before slot 0.
#[derive(Clone, Copy, Default, PartialEq, Eq, PartialOrd, Ord)]
pub struct DueCell {
    pub port: usize,
    pub due: i64,
    pub cell: usize,
}

// By the port, then by the due slot, then by the cell.
impl Ordered for DueCell {
    ghost upto = { due_upto };

    ghost total = { due_lawful.total };

    ghost trans = { due_lawful.trans };

    fn not_after(&self, other: &DueCell) -> bool {
        self <= other
    }
}
