// The content of a schedule file as text for a person. The text and what it tells of go side by side, as in `write!`: a
// struct of both would only be taken apart in each function.
#![tactic(auto)]

mod cell;

ghost use Rattle.std.specs.Prelude.{◌≡◌, ◌++◌, IfOk, string_bytes, OnOk};
ghost use Rattle.listing.specs.Listed.{kind_line, pile_line, port_line, lines_from, cell_line, listed};

use crate::cell::write_cell;
use layout::{Kind, Pile, Source};
use std::alloc::{AllocError, Global};

// Writes the first two lines: what kind of schedule it is, and the queue discipline.
fn write_head(text: &mut String, kind: Kind, pile: Pile) -> Result<(), AllocError>
    ensures { OnOk result (string_bytes text.new ≡ string_bytes text.old ++ (kind_line kind ++ pile_line pile)) }
{
    writeln!(text, "kind {kind}")?;
    writeln!(text, "pile {pile}")
}

// Writes a line for each port.
fn write_ports<S: Source>(text: &mut String, s: &S) -> Result<(), AllocError>
    ensures { OnOk result (string_bytes text.new ≡ string_bytes text.old ++ lines_from port_line 0 (S.content s.now).delays) }
{
    for port in 0..s.ports() {
        writeln!(text, "port {port} delay {}", s.delay(port))?;
    }
    Ok(())
}

// Writes a line for each cell.
fn write_cells<S: Source>(text: &mut String, s: &S) -> Result<(), AllocError>
    ensures { OnOk result (string_bytes text.new ≡ string_bytes text.old ++ lines_from (cell_line (S.content s.now).kind) 0 (S.content s.now).cells) }
{
    for cell in 0..s.cells() {
        write_cell(text, s, cell)?;
    }
    Ok(())
}

// Writes the whole text.
fn write_all<S: Source>(text: &mut String, s: &S) -> Result<(), AllocError>
    ensures { OnOk result (string_bytes text.new ≡ string_bytes text.old ++ listed (S.content s.now)) }
{
    write_head(text, s.kind(), s.pile())?;
    write_ports(text, s)?;
    write_cells(text, s)
}

// The text, or an error where there is no memory for it.
pub fn listing<S: Source>(heap: Global, s: &S) -> Result<String, AllocError>
    ensures { IfOk result (λ t. string_bytes t ≡ listed (S.content s.now)) }
{
    let mut text = String::new(heap);
    write_all(&mut text, s)?;
    Ok(text)
}
