// The head of a schedule file, and its tests.
ghost use Rattle.std.specs.Prelude.{◌≡◌};
ghost use Rattle.refusal.specs.Tests.{tested};
ghost use Rattle.layout.specs.Order.{count_tests};
ghost use Rattle.schedule.specs.Heads.{KindRead, PileRead, HeadRead};

use crate::numbers::word_at;
use layout::{Accepts, Kind, Pile};
use refusal::Refusal;

#[derive(Clone, Copy)]
pub struct Head {
    pub kind: Kind,
    pub pile: Pile,
    pub ports: usize,
    pub cells: usize,
    pub hops: usize,
}

// The kind that a file's first byte names, if the caller takes it.
fn kind_of(byte: u8, accepts: Accepts) -> Result<Kind, Refusal>
    ensures { KindRead accepts byte result }
{
    let kind = Kind::try_from(byte).map_err(|_| Refusal::BadField(0))?;
    if accepts == Accepts::LoadsOnly && kind != Kind::Load {
        return Err(Refusal::BadField(0));
    }
    Ok(kind)
}

// The pile that its second byte names.
fn pile_of(byte: u8) -> Result<Pile, Refusal>
    ensures { PileRead byte result }
{
    Pile::try_from(byte).map_err(|_| Refusal::BadField(1))
}

// The limits of the three counts.
fn test_counts(ports: usize, cells: usize, hops: usize) -> Result<(), Refusal>
    ensures { result ≡ tested (count_tests ports cells hops) }
{
    if ports == 0 || ports > 32 {
        return Err(Refusal::BadCount(2));
    }
    if cells == 0 || cells > 256 {
        return Err(Refusal::BadCount(4));
    }
    if hops > 2048 {
        return Err(Refusal::BadCount(6));
    }
    Ok(())
}

impl Head {
    // The head's tests in their order: a length under 8, kind, pile, counts, and the whole length.
    pub(crate) fn read(bytes: &[u8], accepts: Accepts) -> Result<Head, Refusal>
        ensures { HeadRead accepts bytes.now result }
    {
        if bytes.len() < 8 {
            return Err(Refusal::WrongLength(bytes.len()));
        }
        let kind = kind_of(bytes[0], accepts)?;
        let pile = pile_of(bytes[1])?;
        let ports = usize::from(word_at(bytes, 2));
        let cells = usize::from(word_at(bytes, 4));
        let hops = usize::from(word_at(bytes, 6));
        test_counts(ports, cells, hops)?;
        // the length as in the writer's own function, which is private to `layout`: both are tied to one definition
        if bytes.len() != 8 + 2 * ports + 10 * cells + 8 * hops {
            return Err(Refusal::WrongLength(bytes.len()));
        }
        Ok(Head {
            kind,
            pile,
            ports,
            cells,
            hops,
        })
    }
}
