// The tower's rules on a plain list.
use std::alloc::{AllocError, Global};

#[derive(Clone, Copy)]
struct Waiter {
    cell: usize,
    port: usize,
    flow: u8,
    slot: u32,
}

// The cells that wait, in the order in which they came.
#[derive(Drop)]
pub struct Model {
    waiters: Vec<Waiter>,
}

impl Model {
    pub(crate) fn new(heap: Global) -> Model {
        Model {
            waiters: Vec::new(heap),
        }
    }

    pub(crate) fn arrive(
        &mut self,
        port: usize,
        cell: usize,
        flow: u8,
        slot: u32,
    ) -> Result<bool, AllocError> {
        if self.waiters.iter().any(|w| w.cell == cell) {
            return Ok(false);
        }
        self.waiters.push(Waiter {
            cell,
            port,
            flow,
            slot,
        })?;
        Ok(true)
    }

    pub(crate) fn withdraw(&mut self, port: usize, cell: usize) -> bool {
        let Some(at) = self
            .waiters
            .iter()
            .position(|w| w.cell == cell && w.port == port)
        else {
            return false;
        };
        let _ = self.waiters.remove(at);
        true
    }

    pub(crate) fn pick(&mut self, port: usize, slot: u32) -> Option<usize> {
        let cell = self.choice(port, slot)?;
        let _ = self.withdraw(port, cell);
        Some(cell)
    }

    pub(crate) fn count(&self, port: usize) -> usize {
        self.waiters.iter().filter(|w| w.port == port).count()
    }

    // The oldest of those that have waited 16 slots; else the first of a flow below 4; else the last.
    fn choice(&self, port: usize, slot: u32) -> Option<usize> {
        let oldest = self
            .waiters
            .iter()
            .filter(|w| w.port == port && slot.saturating_sub(w.slot) >= 16)
            .min_by_key(|w| (w.slot, w.cell));
        let first = self.waiters.iter().find(|w| w.port == port && w.flow < 4);
        let last = self.waiters.iter().rfind(|w| w.port == port);
        oldest.or(first).or(last).map(|w| w.cell)
    }
}

// A linear congruential generator.
#[derive(Clone, Copy)]
pub struct Random {
    state: u32,
}

impl Random {
    pub(crate) fn new(seed: u32) -> Random {
        Random { state: seed }
    }

    // A number below `n`, or 0 where `n` is 0.
    pub(crate) fn below(&mut self, n: u32) -> usize {
        self.state = self.state.wrapping_mul(1664525).wrapping_add(1013904223);
        if n == 0 {
            0
        } else {
            // there is no `From<u32>` for `usize`
            ((self.state >> 16) % n) as usize
        }
    }

    // The mask leaves three bits, so the cast loses nothing.
    pub(crate) fn flow(&mut self) -> u8 {
        (self.below(8) & 7) as u8
    }
}
