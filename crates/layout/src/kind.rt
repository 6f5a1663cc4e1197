// What kind of schedule a file holds, and the queue discipline that it names: enums, with the bytes that stand for them
// and the words for them.
ghost use Rattle.std.specs.Prelude.{◌≡◌, Some};
ghost use Rattle.layout.specs.Contents.{kind_number, pile_number};
ghost use Rattle.layout.specs.Decoding.{Decodes};
ghost use Rattle.layout.specs.Words.{kind_word, pile_words};

use std::fmt;

#[derive(Clone, Copy, PartialEq, Eq, Debug)]
pub enum Kind {
    // cells that nobody has sent yet
    Load,
    // the slots in which a queue discipline sent them
    Recording,
    // the slots in which the least-slack replay sent them
    Replay,
}

// The queue discipline of a recording.
#[derive(Clone, Copy, PartialEq, Eq, Debug)]
pub enum Pile {
    Fifo,
    Lifo,
    // ageing of 16 over classes of 4 over FIFO and LIFO
    Aged,
}

// Which kinds a caller of the reader takes: an enum and no closure, since these are all that a caller can want.
#[derive(Clone, Copy, PartialEq, Eq, Debug)]
pub enum Accepts {
    AnyKind,
    LoadsOnly,
}

// A byte that names no kind, or no discipline.
#[derive(Clone, Copy, PartialEq, Eq, Debug)]
pub struct UnknownByte(pub u8);

// The first byte of a file.
impl From<Kind> for u8 {
    ghost from_gives = { λ kind byte. byte ≡ kind_number kind };

    fn from(kind: Kind) -> u8 {
        match kind {
            Kind::Load => 1,
            Kind::Recording => 2,
            Kind::Replay => 3,
        }
    }
}

impl TryFrom<u8> for Kind {
    type Error = UnknownByte;

    ghost try_from_gives = { Decodes kind_number };

    fn try_from(byte: u8) -> Result<Kind, UnknownByte> {
        match byte {
            1 => Ok(Kind::Load),
            2 => Ok(Kind::Recording),
            3 => Ok(Kind::Replay),
            _ => Err(UnknownByte(byte)),
        }
    }
}

// The second byte of a file.
impl From<Pile> for u8 {
    ghost from_gives = { λ pile byte. byte ≡ pile_number pile };

    fn from(pile: Pile) -> u8 {
        match pile {
            Pile::Fifo => 0,
            Pile::Lifo => 1,
            Pile::Aged => 2,
        }
    }
}

impl TryFrom<u8> for Pile {
    type Error = UnknownByte;

    ghost try_from_gives = { Decodes pile_number };

    fn try_from(byte: u8) -> Result<Pile, UnknownByte> {
        match byte {
            0 => Ok(Pile::Fifo),
            1 => Ok(Pile::Lifo),
            2 => Ok(Pile::Aged),
            _ => Err(UnknownByte(byte)),
        }
    }
}

impl fmt::Display for Kind {
    ghost output = { λ kind. Some (kind_word kind) };

    fn fmt<W: fmt::Write>(&self, f: &mut fmt::Formatter<W>) -> fmt::Result {
        f.write_str(match self {
            Kind::Load => "load",
            Kind::Recording => "recording",
            Kind::Replay => "replay",
        })
    }
}

impl fmt::Display for Pile {
    ghost output = { λ pile. Some (pile_words pile) };

    fn fmt<W: fmt::Write>(&self, f: &mut fmt::Formatter<W>) -> fmt::Result {
        f.write_str(match self {
            Pile::Fifo => "0 fifo",
            Pile::Lifo => "1 lifo",
            Pile::Aged => "2 ageing 16 over classes 4 over fifo and lifo",
        })
    }
}
