// Reading a schedule file: its head, its fields, its chains.
ghost use Rattle.layout.specs.declared.kind.Accepts.TheVariants.{AnyKind, LoadsOnly};
ghost use Rattle.schedule.specs.Reading.{Answers};

use crate::checked::Checked;
use crate::image::Image;
use crate::schedule::Schedule;
use layout::Accepts;
use refusal::Refusal;
use std::alloc::Global;

fn read_kinds(heap: Global, bytes: &[u8], accepts: Accepts) -> Result<Schedule, Refusal>
    ensures { Answers accepts bytes.now result }
{
    let image = Image::read(bytes, accepts)?;
    let checked = Checked::new(image)?;
    let gathering = checked.gather(heap)?;
    Ok(Schedule {
        kind: image.kind(),
        pile: image.pile(),
        plan: gathering.plan,
        marks: gathering.marks,
    })
}

impl Schedule {
    // Reads a schedule file of any kind.
    pub fn read(heap: Global, bytes: &[u8]) -> Result<Schedule, Refusal>
        ensures { Answers AnyKind bytes.now result }
    {
        read_kinds(heap, bytes, Accepts::AnyKind)
    }

    // Reads a load; the other kinds are refused where the kind is tested.
    pub fn read_load(heap: Global, bytes: &[u8]) -> Result<Schedule, Refusal>
        ensures { Answers LoadsOnly bytes.now result }
    {
        read_kinds(heap, bytes, Accepts::LoadsOnly)
    }
}
