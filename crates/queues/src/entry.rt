// A waiting cell as a line holds it.

// The cell's number, and the port, slot and due slot with which it arrived. Cells are below 256 and ports below 32, so they
// are kept short.
#[derive(Clone, Copy, Default)]
pub struct Entry {
    pub cell: u16,
    pub port: u16,
    pub slot: u32,
    pub due: i64,
}
