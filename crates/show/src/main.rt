// Shows a schedule file: reads it from standard input, prints what is in it, and writes it anew to canonical.sch, its
// hop records cell by cell. A file that is refused is told by number and place, and nothing is written.
#![tactic(auto)]

use anyhow::anyhow;
use layout::{file_length, write};
use listing::listing;
use refusal::Refusal;
use schedule::{Schedule, read_bytes};
use std::fs;

fn write_canonical(rt: &HostRuntime, schedule: &Schedule) -> anyhow::Result<()> {
    let mut file = vec![in rt.alloc(); 0u8; file_length(schedule)]?;
    write(schedule, &mut file).map_err(|_| anyhow!("the output is too short"))?;
    fs::write(rt, "canonical.sch", file.as_slice())?;
    Ok(())
}

fn show(rt: &HostRuntime) -> anyhow::Result<()> {
    let bytes = read_bytes(rt.alloc(), rt.stdin())?;
    // `replay` has the same two arms for a refusal: a library for them would have to know what a program prints
    match Schedule::read(rt.alloc(), bytes.as_slice()) {
        Ok(schedule) => {
            let text = listing(rt.alloc(), &schedule)?;
            write_canonical(rt, &schedule)?;
            rt.print(text.as_str())?;
        }
        Err(Refusal::NoMemory) => return Err(anyhow!("no memory")),
        Err(refusal) => println!(rt; "{refusal}")?,
    }
    Ok(())
}

fn main(rt: HostRuntime) -> anyhow::Result<()> {
    show(&rt)
}
