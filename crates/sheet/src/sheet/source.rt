// A sheet tells its content to the writer.
ghost use Rattle.sheet.specs.Sheets.{content_of};

use crate::row::Row;
use crate::sheet::Sheet;
use layout::{CellFields, HopFields, Kind, Pile, Source};

impl Source for Sheet {
    ghost content = { content_of };

    ghost fits = { λ s. s.fit };

    fn kind(&self) -> Kind {
        self.run.into()
    }

    fn pile(&self) -> Pile {
        self.pile
    }

    fn ports(&self) -> usize {
        self.delays.len()
    }

    fn delay(&self, port: usize) -> u8 {
        self.delays.get(port).copied().unwrap_or_default()
    }

    fn cells(&self) -> usize {
        self.rows.len()
    }

    fn cell(&self, cell: usize) -> CellFields {
        self.rows.get(cell).map(Row::fields).unwrap_or_default()
    }

    fn hop(&self, cell: usize, position: usize) -> HopFields {
        self.rows
            .get(cell)
            .and_then(|row| row.hops.get(position))
            .copied()
            .unwrap_or_default()
    }

    fn hops(&self) -> usize {
        self.hops
    }
}
