// The content of a file, held in fixed memory.
mod build;
mod source;

ghost use Rattle.std.specs.Prelude.{◌≡◌, map};
ghost use Rattle.std.proofs.Props.{props};
ghost use Rattle.layout.specs.Contents.{Fit, total_hops};
ghost use Rattle.sheet.specs.Rows.{scheduled, content_from};

use crate::row::Row;
use crate::run::Run;
use arrayvec::ArrayVec;
use layout::Pile;

// The delays of the ports, the rows of the cells, and how many hops those have together.
#[derive(Drop)]
pub struct Sheet {
    run: Run,
    pile: Pile,
    delays: ArrayVec<u8, 32>,
    rows: ArrayVec<Row, 256>,
    hops: usize,
    ghost all_hops: { hops ≡ total_hops (map scheduled rows.items) },
    ghost fit: { Fit (content_from run pile delays.items rows.items) } by { Prim.hlevel props },
}
