// What a schedule adds to a cell of a plan.

// The cell's slack, and the slot in which it was sent from each position of its route.
// An array of the longest route's length, since marks are copied, and an `ArrayVec` cannot be.
#[derive(Clone, Copy)]
pub struct Marks {
    pub slack: i32,
    pub sent: [u32; 8],
}
