// Which run a file tells of.
ghost use Rattle.std.specs.Prelude.{◌≡◌};
ghost use Rattle.sheet.specs.Runs.{kind_of};

use layout::Kind;

#[derive(Clone, Copy, PartialEq, Eq, Debug)]
pub enum Run {
    // a queue discipline sent the cells
    Recording,
    // the least-slack replay sent them
    Replay,
}

// The kind of its file.
impl From<Run> for Kind {
    ghost from_gives = { λ run kind. kind ≡ kind_of run };

    fn from(run: Run) -> Kind {
        match run {
            Run::Recording => Kind::Recording,
            Run::Replay => Kind::Replay,
        }
    }
}
