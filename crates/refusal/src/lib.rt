// Why a call is refused: one enum for the whole product. docs/REFUSALS.md has the table.
#![tactic(auto)]

ghost use Rattle.std.specs.Prelude.{◌≡◌, Some};
ghost use Rattle.refusal.specs.Refusals.{number, layer, place, refused_line};
ghost use Rattle.refusal.specs.declared.Refusal.TheVariants.{NoMemory};

use std::alloc::{AllocError, AllocFailed};
use std::fmt;

// The part of the product that refuses.
#[derive(Clone, Copy, PartialEq, Eq, Debug)]
pub enum Layer {
    Memory,
    File,
    Plan,
    Chain,
    Run,
    Discipline,
    Table,
    Output,
}

// One case for each number, and in it just what its place needs.
#[derive(Clone, Copy, PartialEq, Eq, Debug)]
pub enum Refusal {
    // 0: an allocation found no memory
    NoMemory,
    // 1: a file of the wrong length, with that length
    WrongLength(usize),
    // 2: an unknown kind or pile, or a field that must be zero, with its offset
    BadField(usize),
    // 3: a count of ports, cells or hops that is out of range, with its offset
    BadCount(usize),
    // 4: a delay of 0 or over 255, with its offset in a file, else with the port's number
    BadDelay(usize),
    // 5: a hop index above the hop count, or one that does not lead on, with its offset
    BadIndex(usize),
    // 6: a hop record that is reached twice, or by no chain, with its index
    BadChain(usize),
    // 7: an empty route, or one of more than 8 ports, with the cell's number
    BadRouteLength(usize),
    // 8: a route with an unknown port, with the cell's number
    UnknownPort(usize),
    // 9: a route with a port twice, with the cell's number
    PortTwice(usize),
    // 10: a flow over 7, with the cell's number
    BadFlow(usize),
    // 11: a port or a cell too many, with how many are held
    PlanFull(usize),
    // 12: a seal without a cell
    NoCells,
    // 13: a slot when every cell is gone
    RunEnded,
    // 14: a stamp, a report, an outcome or a file before every cell is gone
    RunNotEnded,
    // 15: a question about an unknown cell, position or port, or about a slack while recording
    UnknownItem,
    // 16: a port over 31, a cell over 255 or a flow over 7
    OutOfRange,
    // 17: a cell that arrives and waits already
    AlreadyWaits,
    // 18: a pick where no cell waits
    NoneWaits,
    // 19: a withdrawal of a cell that does not wait at that port
    NotWaiting,
    // 20: a layer's setting that is out of range
    BadSetting,
    // 21: no free place, or memory handed in that is too short
    NoPlace,
    // 22: an output that is too short
    ShortOutput,
    // 23: a discipline that holds a cell where it must be empty
    HoldsCells,
}

impl Refusal {
    pub fn number(&self) -> u8
        ensures { result ≡ number self.now }
    {
        match self {
            Refusal::NoMemory => 0,
            Refusal::WrongLength(_) => 1,
            Refusal::BadField(_) => 2,
            Refusal::BadCount(_) => 3,
            Refusal::BadDelay(_) => 4,
            Refusal::BadIndex(_) => 5,
            Refusal::BadChain(_) => 6,
            Refusal::BadRouteLength(_) => 7,
            Refusal::UnknownPort(_) => 8,
            Refusal::PortTwice(_) => 9,
            Refusal::BadFlow(_) => 10,
            Refusal::PlanFull(_) => 11,
            Refusal::NoCells => 12,
            Refusal::RunEnded => 13,
            Refusal::RunNotEnded => 14,
            Refusal::UnknownItem => 15,
            Refusal::OutOfRange => 16,
            Refusal::AlreadyWaits => 17,
            Refusal::NoneWaits => 18,
            Refusal::NotWaiting => 19,
            Refusal::BadSetting => 20,
            Refusal::NoPlace => 21,
            Refusal::ShortOutput => 22,
            Refusal::HoldsCells => 23,
        }
    }

    pub fn layer(&self) -> Layer
        ensures { result ≡ layer self.now }
    {
        match self {
            Refusal::NoMemory => Layer::Memory,
            Refusal::WrongLength(_) | Refusal::BadField(_) | Refusal::BadCount(_) => Layer::File,
            Refusal::BadDelay(_)
            | Refusal::BadRouteLength(_)
            | Refusal::UnknownPort(_)
            | Refusal::PortTwice(_)
            | Refusal::BadFlow(_)
            | Refusal::PlanFull(_)
            | Refusal::NoCells => Layer::Plan,
            Refusal::BadIndex(_) | Refusal::BadChain(_) => Layer::Chain,
            Refusal::RunEnded | Refusal::RunNotEnded | Refusal::UnknownItem | Refusal::HoldsCells =>
                Layer::Run,
            Refusal::OutOfRange
            | Refusal::AlreadyWaits
            | Refusal::NoneWaits
            | Refusal::NotWaiting
            | Refusal::BadSetting => Layer::Discipline,
            Refusal::NoPlace => Layer::Table,
            Refusal::ShortOutput => Layer::Output,
        }
    }

    pub fn place(&self) -> usize
        ensures { result ≡ place self.now }
    {
        match self {
            Refusal::WrongLength(p)
            | Refusal::BadField(p)
            | Refusal::BadCount(p)
            | Refusal::BadDelay(p)
            | Refusal::BadIndex(p)
            | Refusal::BadChain(p)
            | Refusal::BadRouteLength(p)
            | Refusal::UnknownPort(p)
            | Refusal::PortTwice(p)
            | Refusal::BadFlow(p)
            | Refusal::PlanFull(p) => *p,
            // a case without a place tells 0, as the table of refusals has it
            _ => 0,
        }
    }
}

// Conversions by hand: contracts name the refusal that `?` makes, and a derived conversion would have none.
impl From<AllocError> for Refusal {
    ghost from_gives = { λ _ r. r ≡ NoMemory };

    fn from(_e: AllocError) -> Refusal {
        Refusal::NoMemory
    }
}

impl<T: Drop> From<AllocFailed<T>> for Refusal {
    ghost from_gives = { λ _ r. r ≡ NoMemory };

    fn from(_e: AllocFailed<T>) -> Refusal {
        Refusal::NoMemory
    }
}

impl fmt::Display for Refusal {
    ghost output = { λ r. Some (refused_line r) };

    fn fmt<W: fmt::Write>(&self, f: &mut fmt::Formatter<W>) -> fmt::Result {
        let number = self.number();
        let place = self.place();
        write!(f, "refused {number} at {place}")
    }
}
