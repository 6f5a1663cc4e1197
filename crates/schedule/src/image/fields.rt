// The tests of a file's head, and the records of the file.
ghost use Rattle.std.specs.Prelude.{◌≡◌, ◌+◌, ◌<◌, ◌≤◌, ◌==◌};
ghost use Rattle.layout.specs.Fields.{kind_at, port_offset, delay_at, cell_offset, hop_offset};
ghost use Rattle.schedule.specs.Images.{ImageRead, raw_cell, raw_hop};

use crate::head::Head;
use crate::image::Image;
use crate::numbers::{long_at, word_at};
use crate::raw::{RawCell, RawHop};
use layout::{Accepts, Kind, Pile};
use refusal::Refusal;

impl<'a> Image<'a> {
    // The tests of a file's head.
    pub(crate) fn read(bytes: &'a [u8], accepts: Accepts) -> Result<Image<'a>, Refusal>
        ensures { ImageRead accepts bytes.now result }
    {
        let head = Head::read(bytes, accepts)?;
        Ok(Image { bytes, head })
    }

    pub(crate) fn kind(&self) -> Kind
        ensures { result ≡ self.now.head.kind }
    {
        self.head.kind
    }

    pub(crate) fn pile(&self) -> Pile
        ensures { result ≡ self.now.head.pile }
    {
        self.head.pile
    }

    pub(crate) fn ports(&self) -> usize
        ensures { result ≡ self.now.head.ports }
    {
        self.head.ports
    }

    pub(crate) fn cells(&self) -> usize
        ensures { result ≡ self.now.head.cells }
    {
        self.head.cells
    }

    pub(crate) fn hops(&self) -> usize
        ensures { result ≡ self.now.head.hops }
    {
        self.head.hops
    }

    pub(crate) fn is_load(&self) -> bool
        ensures { result ≡ (kind_at self.now.bytes.now == 1) }
    {
        self.head.kind == Kind::Load
    }

    // Each reader below asks for the bound of its own number, of which alone it tells.

    // Where the delay of a port lies.
    pub(crate) fn port_offset(&self, port: usize) -> usize
        requires { port < self.now.head.ports }
        ensures { result ≡ port_offset port }
    {
        8 + 2 * port
    }

    // Where the record of a cell lies.
    pub(crate) fn cell_offset(&self, cell: usize) -> usize
        requires { cell < self.now.head.cells }
        ensures { result ≡ cell_offset self.now.bytes.now cell }
    {
        8 + 2 * self.head.ports + 10 * cell
    }

    // Where a hop record lies, by its index from 1 on.
    pub(crate) fn hop_offset(&self, index: usize) -> usize
        requires { (0 < index) × (index ≤ self.now.head.hops) }
        ensures { result ≡ hop_offset self.now.bytes.now index }
    {
        8 + 2 * self.head.ports + 10 * self.head.cells + 8 * (index - 1)
    }

    // The delay of a port.
    pub(crate) fn delay(&self, port: usize) -> u16
        requires { port < self.now.head.ports }
        ensures { result ≡ delay_at self.now.bytes.now port }
    {
        word_at(self.bytes, self.port_offset(port))
    }

    // The record of a cell.
    pub(crate) fn cell(&self, cell: usize) -> RawCell
        requires { cell < self.now.head.cells }
        ensures { result ≡ raw_cell self.now.bytes.now cell }
    {
        let bytes = self.bytes;
        let at = self.cell_offset(cell);
        RawCell {
            entry: word_at(bytes, at),
            flow: bytes[at + 2],
            zero: bytes[at + 3],
            first: word_at(bytes, at + 4),
            slack: long_at(bytes, at + 6),
        }
    }

    // A hop record, by its index from 1 on.
    pub(crate) fn hop(&self, index: usize) -> RawHop
        requires { (0 < index) × (index ≤ self.now.head.hops) }
        ensures { result ≡ raw_hop self.now.bytes.now index }
    {
        let bytes = self.bytes;
        let at = self.hop_offset(index);
        RawHop {
            next: word_at(bytes, at),
            port: bytes[at + 2],
            zero: bytes[at + 3],
            sent: long_at(bytes, at + 4),
        }
    }
}
