// A schedule tells its content to the writer.
ghost use Rattle.schedule.specs.Reading.{content_of};
ghost use Rattle.schedule.specs.Contents;

use crate::schedule::Schedule;
use layout::{CellFields, HopFields, Kind, Pile, Source};

impl Source for Schedule {
    ghost content = { content_of };

    ghost fits = { λ s. Contents.fits s };

    fn kind(&self) -> Kind {
        self.kind
    }

    fn pile(&self) -> Pile {
        self.pile
    }

    fn ports(&self) -> usize {
        self.plan.ports()
    }

    fn delay(&self, port: usize) -> u8 {
        self.plan.delay(port).unwrap_or_default()
    }

    fn cells(&self) -> usize {
        self.plan.cells()
    }

    fn cell(&self, cell: usize) -> CellFields {
        let Some(planned) = self.plan.cell(cell) else {
            return CellFields::default();
        };
        let slack = self.marks[cell].slack;
        let hops = planned.route().ports().len();
        CellFields {
            entry: planned.entry(),
            flow: planned.flow(),
            slack,
            hops,
        }
    }

    fn hop(&self, cell: usize, position: usize) -> HopFields {
        let Some(planned) = self.plan.cell(cell) else {
            return HopFields::default();
        };
        let route = planned.route();
        let ports = route.ports();
        if position >= ports.len() {
            return HopFields::default();
        }
        HopFields {
            port: ports[position],
            sent: self.marks[cell].sent[position],
        }
    }

    fn hops(&self) -> usize {
        self.plan.hops()
    }
}
