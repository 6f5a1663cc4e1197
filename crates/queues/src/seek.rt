// Searches among the entries of a line, from its front or from its back.
ghost use Rattle.std.specs.Prelude.{◌≡◌, MatchOption};
ghost use Rattle.queues.specs.Entries.{HasNo, IsFirstAt, IsLastAt, Stands};

use crate::entry::Entry;

// The place of a cell, or none.
pub(crate) fn place_of(entries: &[Entry], cell: usize) -> Option<usize>
    ensures { MatchOption result (HasNo (λ e. e.cell ≡ cell) entries.now) (Stands entries.now cell) }
{
    entries.iter().position(|e| usize::from(e.cell) == cell)
}

// The first place at a port, or none.
pub(crate) fn first_at(entries: &[Entry], port: usize) -> Option<usize>
    ensures { MatchOption result (HasNo (λ e. e.port ≡ port) entries.now) (IsFirstAt entries.now port) }
{
    entries.iter().position(|e| usize::from(e.port) == port)
}

// The last place at a port, or none.
pub(crate) fn last_at(entries: &[Entry], port: usize) -> Option<usize>
    ensures { MatchOption result (HasNo (λ e. e.port ≡ port) entries.now) (IsLastAt entries.now port) }
{
    entries.iter().rposition(|e| usize::from(e.port) == port)
}
