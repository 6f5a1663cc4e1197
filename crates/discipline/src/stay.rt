// A cell's stay at a port.

// The port where the cell waits, the slot in which it arrived, and its due slot, as they were handed in.
#[derive(Clone, Copy)]
pub struct Stay {
    pub port: usize,
    pub slot: u32,
    pub due: i64,
}
