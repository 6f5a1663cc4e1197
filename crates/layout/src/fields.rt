// The fields of a cell and of a hop, as the writer takes them. The default is all zeros, as past the last cell and hop.

#[derive(Clone, Copy, Default)]
pub struct CellFields {
    pub entry: u16,
    pub flow: u8,
    pub slack: i32,
    // how many hops its route has
    pub hops: usize,
}

#[derive(Clone, Copy, Default)]
pub struct HopFields {
    pub port: u8,
    pub sent: u32,
}
