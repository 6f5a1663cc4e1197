// A schedule file whose head has passed its tests, read record by record where it lies.
mod check;
mod fields;

ghost use Rattle.std.specs.Prelude.{◌≡◌, ◌<◌, ◌≤◌, length};
ghost use Rattle.layout.specs.Contents.{kind_number, pile_number};
ghost use Rattle.layout.specs.Fields.{kind_at, pile_at, port_count, cell_count, hop_count, file_length};

use crate::head::Head;

// The counts are those of the bytes, within their limits, and the bytes are as many as they ask for.
#[derive(Clone, Copy)]
pub struct Image<'a> {
    bytes: &'a [u8],
    head: Head,
    ghost kind_read: { kind_number head.kind ≡ kind_at bytes.now },
    ghost pile_read: { pile_number head.pile ≡ pile_at bytes.now },
    ghost ports_read: { head.ports ≡ port_count bytes.now },
    ghost cells_read: { head.cells ≡ cell_count bytes.now },
    ghost hops_read: { head.hops ≡ hop_count bytes.now },
    ghost some: { (0 < head.ports) × (0 < head.cells) },
    ghost limits: { (head.ports ≤ 32) × (head.cells ≤ 256) × (head.hops ≤ 2048) },
    ghost whole: { length bytes.now ≡ file_length head.ports head.cells head.hops },
}
