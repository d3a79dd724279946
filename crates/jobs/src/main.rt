//! `jobs NAME SEED` makes one of the jobs that a user waits for, on inputs that are drawn from the seed, and
//! prints one number for all that came of it. `jobs NAME SEED PARTS` makes one part of so many.
#![tactic(auto)]

use fault::Fault;
use part::Part;
use std::alloc::Global;
use std::env;

mod calls;
mod crowd;
mod digest;
mod draw;
mod fault;
mod house;
mod part;
mod replay;
mod service;
mod shapes;
mod start;
mod texts;

/// The jobs: calls in service, calls beside much that is live, replays of traces, texts of large states, and
/// starts.
const JOBS: [&str; 5] = ["calls", "crowd", "replay", "texts", "start"];

/// Makes the job of this name.
fn perform(alloc: Global, name: &str, seed: u64, part: Part) -> Result<u64, Fault> {
    match name {
        "calls" => service::serve(alloc, seed, part),
        "crowd" => crowd::press(alloc, seed, part),
        "replay" => replay::replay(alloc, seed, part),
        "texts" => texts::show_states(alloc, seed, part),
        "start" => start::start(alloc, seed, part),
        _ => Err(Fault::Usage),
    }
}

fn number_of(word: Option<String>) -> Result<u32, Fault> {
    match word {
        Some(word) => word.parse().map_err(|_| Fault::Usage),
        None => Ok(1),
    }
}

/// Makes the job of this name, or all of them, and prints a line for each.
fn print(rt: &HostRuntime, name: &str, seed: u64, part: Part) -> Result<(), Fault> {
    for job in JOBS {
        if name == job || name == "all" {
            let value = perform(rt.alloc(), job, seed, part)?;
            println!(rt; "{job} {value:016x}")?;
        }
    }
    Ok(())
}

fn main(rt: HostRuntime) -> Result<(), Fault> {
    let mut words = env::args(&rt)?.skip(1);
    let name = words.next().ok_or(Fault::Usage)?;
    let seed = number_of(words.next())?;
    let part = Part::new(number_of(words.next())?);
    if name.as_str() != "all" && !JOBS.contains(&name.as_str()) {
        return Err(Fault::Usage);
    }
    print(&rt, &name, u64::from(seed), part)
}
