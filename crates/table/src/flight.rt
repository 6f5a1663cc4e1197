// A cell that is on its way.
ghost use Rattle.table.specs.Kinds.{flight_upto};
ghost use Rattle.table.specs.Lexical.{flight_lawful};

use crate::order::Ordered;

// The slot in which a cell arrives: from outside, or at the end of a link.
#[derive(Clone, Copy, Default, PartialEq, Eq, PartialOrd, Ord)]
pub struct Flight {
    pub slot: u32,
    pub cell: usize,
}

// By the slot, then by the cell.
impl Ordered for Flight {
    ghost upto = { flight_upto };

    ghost total = { flight_lawful.total };

    ghost trans = { flight_lawful.trans };

    fn not_after(&self, other: &Flight) -> bool {
        self <= other
    }
}
