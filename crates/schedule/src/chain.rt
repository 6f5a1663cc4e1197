// The chains of hop records.
mod along;

use arrayvec::ArrayVec;

// What a walk along a chain has found: the ports of its records, and the slots in which the cell was sent from them.
// A ninth port is kept, so that the plan sees a route that is too long; it takes no memory, however long a chain is.
// The slots are an array, with 0 past the route's end, as the marks take them.
#[derive(Drop)]
pub struct Found {
    ports: ArrayVec<u8, 9>,
    sent: [u32; 8],
}
