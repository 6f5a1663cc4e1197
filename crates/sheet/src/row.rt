// A row of a sheet: a cell as the file tells it.
mod build;

ghost use Rattle.std.specs.Prelude.{◌^◌, ◌<◌};
ghost use Rattle.std.specs.Int.Signed.{mag};

use arrayvec::ArrayVec;
use layout::HopFields;

// The cell's entry slot, its flow, its slack of 32 bits, and its hops along the route.
#[derive(Drop)]
pub(crate) struct Row {
    pub(crate) entry: u16,
    pub(crate) flow: u8,
    pub(crate) slack: i32,
    pub(crate) hops: ArrayVec<HopFields, 8>,
    ghost slack_fits: { mag slack < 2 ^ 31 },
}
