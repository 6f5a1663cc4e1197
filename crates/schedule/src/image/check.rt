// The tests of all fields, in file order.
ghost use Rattle.std.specs.Prelude.{◌≡◌, ◌+◌, ◌<◌, ◌≤◌};
ghost use Rattle.refusal.specs.Tests.{tested, each_below};
ghost use Rattle.layout.specs.Order.{port_fields, cell_fields, hop_fields, field_tests};

use crate::image::Image;
use crate::order::test_each;
use refusal::Refusal;

impl Image<'_> {
    fn test_port(&self, port: usize) -> Result<(), Refusal>
        requires { port < self.now.head.ports }
        ensures { result ≡ tested (port_fields self.now.bytes.now port) }
    {
        let delay = self.delay(port);
        if delay == 0 || delay > 255 {
            return Err(Refusal::BadDelay(self.port_offset(port)));
        }
        Ok(())
    }

    fn test_cell(&self, cell: usize) -> Result<(), Refusal>
        requires { cell < self.now.head.cells }
        ensures { result ≡ tested (cell_fields self.now.bytes.now cell) }
    {
        let at = self.cell_offset(cell);
        let raw = self.cell(cell);
        if raw.flow > 7 {
            return Err(Refusal::BadFlow(cell));
        }
        if raw.zero != 0 {
            return Err(Refusal::BadField(at + 3));
        }
        if usize::from(raw.first) > self.head.hops {
            return Err(Refusal::BadIndex(at + 4));
        }
        if self.is_load() && raw.slack != 0 {
            return Err(Refusal::BadField(at + 6));
        }
        Ok(())
    }

    fn test_hop(&self, index: usize) -> Result<(), Refusal>
        requires { (0 < index) × (index ≤ self.now.head.hops) }
        ensures { result ≡ tested (hop_fields self.now.bytes.now index) }
    {
        let at = self.hop_offset(index);
        let raw = self.hop(index);
        let next = usize::from(raw.next);
        if next != 0 && (next <= index || next > self.head.hops) {
            return Err(Refusal::BadIndex(at));
        }
        if raw.zero != 0 {
            return Err(Refusal::BadField(at + 3));
        }
        if self.is_load() && raw.sent != 0 {
            return Err(Refusal::BadField(at + 4));
        }
        Ok(())
    }

    pub(crate) fn test_fields(&self) -> Result<(), Refusal>
        ensures { result ≡ tested (field_tests self.now.bytes.now) }
    {
        test_each(self.head.ports, |port| self.test_port(port))?;
        test_each(self.head.cells, |cell| self.test_cell(cell))?;
        test_each(self.head.hops, |k| self.test_hop(k + 1))
    }
}
