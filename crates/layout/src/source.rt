// What the writer asks of a schedule: anything that can tell the content of a file, field by field.
ghost use Rattle.std.specs.Prelude.{◌≡◌, length, get_or, slice_index, slice_index_or};
ghost use Rattle.layout.specs.Contents.{Content, Fit, no_scheduled, no_hop, total_hops};
ghost use Rattle.layout.specs.Sources.{TellsCell, TellsHop};

use crate::fields::{CellFields, HopFields};
use crate::kind::{Kind, Pile};

// Past the last port, cell or hop a field reads as zero.
// Ports, cells and hops are asked for by number, since a method of a trait cannot hand out an iterator of its own.
pub trait Source {
    ghost content: { Self → Content };

    fn kind(&self) -> Kind
        ensures { result ≡ (content self.now).kind };

    fn pile(&self) -> Pile
        ensures { result ≡ (content self.now).pile };

    fn ports(&self) -> usize
        ensures { result ≡ length (content self.now).delays };

    fn delay(&self, port: usize) -> u8
        ensures { result ≡ slice_index (content self.now).delays port };

    fn cells(&self) -> usize
        ensures { result ≡ length (content self.now).cells };

    fn cell(&self, cell: usize) -> CellFields
        ensures { TellsCell result (slice_index_or (content self.now).cells cell no_scheduled) };

    fn hop(&self, cell: usize, position: usize) -> HopFields
        ensures { TellsHop result (slice_index_or (get_or (content self.now).cells cell no_scheduled).hops position no_hop) };

    // How many hops all cells have together.
    fn hops(&self) -> usize
        ensures { result ≡ total_hops (content self.now).cells };

    ghost fits: { (x : Self) → Fit (content x) };
}
