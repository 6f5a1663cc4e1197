// A record of the hop log.

// The slot in which a cell was sent from one position of its route, or none yet. The hop log has a record for each
// hop: those of a cell lie one after another along its route, cell by cell.
#[derive(Clone, Copy, Default)]
pub struct HopRecord {
    pub sent: Option<u32>,
}
