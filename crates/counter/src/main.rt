// Reads a catalogue from standard input and says what it found, or what is wrong and where.
#![tactic(auto)]

mod input;
mod survey;

use anyhow::anyhow;
use fault::report::Report;
use input::load;
use survey::survey;

fn main(rt: HostRuntime) -> anyhow::Result<()> {
    let text = load(rt.stdin(), rt.alloc())?;
    let found = survey(&text);
    let report = Report { found };
    println!(rt; "{report}")?;
    match found {
        Ok(_) => Ok(()),
        Err(_) => Err(anyhow!("the catalogue is refused")),
    }
}
