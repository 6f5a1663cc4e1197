// The ports, cells and flows that a discipline takes.
ghost use Rattle.std.specs.Prelude.{◌≡◌, ◌≤◌, ◌||◌, nat_lt, OnOk};
ghost use Rattle.refusal.specs.Tests.{tested, when};
ghost use Rattle.refusal.specs.declared.Refusal.TheVariants.{OutOfRange};

use refusal::Refusal;

const LAST_PORT: usize = 31;

const LAST_CELL: usize = 255;

const LAST_FLOW: u8 = 7;

// Refuses a port over 31.
pub fn test_port(port: usize) -> Result<(), Refusal>
    ensures value { result ≡ tested (when (nat_lt 31 port) OutOfRange) }
    ensures passed { OnOk result (port ≤ 31) }
{
    if port > LAST_PORT {
        return Err(Refusal::OutOfRange);
    }
    Ok(())
}

// Refuses a cell over 255.
pub fn test_cell(cell: usize) -> Result<(), Refusal>
    ensures value { result ≡ tested (when (nat_lt 255 cell) OutOfRange) }
    ensures passed { OnOk result (cell ≤ 255) }
{
    if cell > LAST_CELL {
        return Err(Refusal::OutOfRange);
    }
    Ok(())
}

// Refuses a port over 31 or a cell over 255.
pub fn test_place(port: usize, cell: usize) -> Result<(), Refusal>
    ensures value { result ≡ tested (when (nat_lt 31 port || nat_lt 255 cell) OutOfRange) }
    ensures passed { OnOk result ((port ≤ 31) × (cell ≤ 255)) }
{
    test_port(port)?;
    test_cell(cell)
}

// Refuses a port over 31, a cell over 255 or a flow over 7.
pub fn test_arrival(port: usize, cell: usize, flow: u8) -> Result<(), Refusal>
    ensures value { result ≡ tested (when (nat_lt 31 port || (nat_lt 255 cell || nat_lt 7 flow)) OutOfRange) }
    ensures passed { OnOk result ((port ≤ 31) × (cell ≤ 255) × (flow ≤ 7)) }
{
    test_place(port, cell)?;
    if flow > LAST_FLOW {
        return Err(Refusal::OutOfRange);
    }
    Ok(())
}
