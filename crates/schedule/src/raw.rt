// The records of a schedule file as they lie in its bytes, before any test.

#[derive(Clone, Copy)]
pub struct RawCell {
    pub entry: u16,
    pub flow: u8,
    // must be 0
    pub zero: u8,
    // the index of its first hop record
    pub first: u16,
    // the bits of a signed number
    pub slack: u32,
}

#[derive(Clone, Copy)]
pub struct RawHop {
    // the index of the next hop record, or 0
    pub next: u16,
    pub port: u8,
    // must be 0
    pub zero: u8,
    pub sent: u32,
}
