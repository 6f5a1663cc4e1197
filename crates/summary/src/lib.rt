// What came of a recording that has ended, as text for a person.
#![tactic(auto)]

ghost use Rattle.std.specs.Prelude.{◌≡◌, ◌++◌, length, string_bytes, IfOk, OnOk};
ghost use Rattle.plan.specs.Plans.{cells_of};
ghost use Rattle.summary.specs.Summaries.{cell_line, cell_lines, ports_part, ports_line, contested_ports, Answers};

use arrayvec::ArrayVec;
use outcome::{CellOutcome, Ended};
use refusal::Refusal;
use rules::HopRecord;
use run::Recording;
use std::alloc::{AllocError, Global};

// Writes the line of a cell.
fn write_cell(text: &mut String, cell: usize, told: CellOutcome) -> Result<(), AllocError>
    ensures { OnOk result (string_bytes text.new ≡ string_bytes text.old ++ cell_line cell told) }
{
    let CellOutcome { entry, exit, slack } = told;
    writeln!(text, "cell {cell} entry {entry} exit {exit} waited {slack}")
}

// Writes a line for each cell.
fn write_cells(text: &mut String, ended: &Ended) -> Result<(), AllocError>
    ensures { OnOk result (string_bytes text.new ≡ string_bytes text.old ++ cell_lines ended.now.recording.now ended.now.log.now (length (cells_of ended.now.recording.now.plan))) }
{
    for cell in 0..ended.cells() {
        write_cell(text, cell, ended.fared(cell).unwrap())?;
    }
    Ok(())
}

// The numbers of the contested ports, in ascending order. They lie in the value itself, so that a summary takes memory for
// its text alone.
fn contested_ports(heap: Global, recording: &Recording) -> Result<ArrayVec<usize, 32>, AllocError>
    ensures { IfOk result (λ ports. ports.items ≡ contested_ports recording.now) }
{
    (0..recording.plan().ports())
        .filter(|port| recording.contested(*port).unwrap())
        .collect(heap)
}

// Writes ports in a line, or the word for none.
fn write_ports(text: &mut String, ports: &[usize]) -> Result<(), AllocError>
    ensures { OnOk result (string_bytes text.new ≡ string_bytes text.old ++ ports_part ports.now) }
{
    for port in ports {
        write!(text, " {port}")?;
    }
    let end = if ports.is_empty() { " none" } else { "" };
    write!(text, "{end}")
}

// Writes the line of the contested ports.
fn write_contested(text: &mut String, ports: &[usize]) -> Result<(), AllocError>
    ensures { OnOk result (string_bytes text.new ≡ string_bytes text.old ++ ports_line ports.now) }
{
    write!(text, "contested")?;
    write_ports(text, ports)?;
    writeln!(text)
}

// The summary: a line for each cell, with its entry slot, its exit slot and how many slots it waited, and then one with
// the contested ports. Refused before every cell is gone, and where the log is shorter than the hops.
pub fn summary(heap: Global, recording: &Recording, log: &[HopRecord]) -> Result<String, Refusal>
    ensures { Answers recording.now log.now result }
{
    let ended = Ended::new(recording, log)?;
    let mut text = String::new(heap);
    write_cells(&mut text, &ended)?;
    write_contested(&mut text, contested_ports(heap, recording)?.as_slice())?;
    Ok(text)
}
