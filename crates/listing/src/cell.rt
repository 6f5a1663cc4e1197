// The line of a cell.
ghost use Rattle.std.specs.Prelude.{◌≡◌, ◌++◌, get_or, string_bytes, OnOk, slice_index_or};
ghost use Rattle.layout.specs.Contents.{no_scheduled};
ghost use Rattle.listing.specs.Listed.{slack_part, hop_part, route_part, cell_line};

use layout::{HopFields, Kind, Source};
use std::alloc::AllocError;

// Writes a slack, which a load does not have.
fn write_slack(text: &mut String, kind: Kind, slack: i32) -> Result<(), AllocError>
    ensures { OnOk result (string_bytes text.new ≡ string_bytes text.old ++ slack_part kind slack) }
{
    match kind {
        Kind::Load => Ok(()),
        Kind::Recording | Kind::Replay => write!(text, " slack {slack}"),
    }
}

// Writes a hop: its port, and behind it the slot in which the cell was sent, which a load does not have.
fn write_hop(text: &mut String, kind: Kind, hop: HopFields) -> Result<(), AllocError>
    ensures { OnOk result (string_bytes text.new ≡ string_bytes text.old ++ hop_part kind hop.port hop.sent) }
{
    let HopFields { port, sent } = hop;
    match kind {
        Kind::Load => write!(text, " {port}"),
        Kind::Recording | Kind::Replay => write!(text, " {port}@{sent}"),
    }
}

// Writes the route of a cell, hop by hop.
fn write_route<S: Source>(text: &mut String, s: &S, cell: usize) -> Result<(), AllocError>
    ensures { OnOk result (string_bytes text.new ≡ string_bytes text.old ++ route_part (S.content s.now).kind (get_or (S.content s.now).cells cell no_scheduled).hops) }
{
    let kind = s.kind();
    write!(text, " route")?;
    for position in 0..s.cell(cell).hops {
        write_hop(text, kind, s.hop(cell, position))?;
    }
    Ok(())
}

// Writes the line of a cell.
pub(crate) fn write_cell<S: Source>(text: &mut String, s: &S, cell: usize) -> Result<(), AllocError>
    ensures { OnOk result (string_bytes text.new ≡ string_bytes text.old ++ cell_line (S.content s.now).kind cell (slice_index_or (S.content s.now).cells cell no_scheduled)) }
{
    let fields = s.cell(cell);
    write!(
        text,
        "cell {cell} entry {} flow {}",
        fields.entry, fields.flow
    )?;
    write_slack(text, s.kind(), fields.slack)?;
    write_route(text, s, cell)?;
    writeln!(text)
}
