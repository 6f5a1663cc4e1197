// Where a cell waits.

// The position of its route, the port there, the cell's flow, whether the route goes on from there, and the place of
// the hop in the hop log.
#[derive(Clone, Copy)]
pub(crate) struct Standing {
    pub(crate) position: usize,
    pub(crate) port: usize,
    pub(crate) flow: u8,
    pub(crate) goes_on: bool,
    pub(crate) place: usize,
}
