//! `ffaspm run MANIFEST SCRIPT` runs a script of calls from a manifest on, and writes its text.
//! `ffaspm check MANIFEST` writes the table pages that each partition's grants need. With `--explain`
//! a fault of the manifest is followed by a line that says where it is and which rule is broken.
#![tactic(auto)]

use arguments::{Task, read_arguments, words_of};
use audit::check_text;
use fault::Fault;
use files::{open_script, read_manifest};
use pool::RawPool;
use script::{Watched, run_script};
use std::io::{self, Write};
use std::process::ExitCode;

mod arguments;
mod fault;
mod files;

/// The manifest is read and judged before the script is opened.
fn perform(rt: &HostRuntime, task: &Task<'_>) -> Result<(), Fault> {
    let alloc = rt.alloc();
    match task {
        Task::Run { manifest, script } => {
            let manifest = read_manifest(rt, manifest)?;
            let mut reader = Watched::new(open_script(rt, script)?);
            let mut writer = Watched::new(io::writer(rt));
            Ok(run_script::<RawPool, _, _>(alloc, manifest, &mut reader, &mut writer)?)
        }
        Task::Check { manifest } => {
            let manifest = read_manifest(rt, manifest)?;
            let text = check_text(alloc, &manifest)?;
            io::writer(rt)
                .write_all(text.as_bytes())
                .map_err(|_| Fault::Output)
        }
    }
}

/// Does what the program's words ask for. A fault comes with whether it is to be explained.
fn start(rt: &HostRuntime) -> Result<(), (Fault, bool)> {
    let alloc = rt.alloc();
    let words = words_of(alloc, rt).map_err(|fault| (fault, false))?;
    let arguments = read_arguments(alloc, &words).map_err(|fault| (fault, false))?;
    perform(rt, &arguments.task).map_err(|fault| (fault, arguments.explains))
}

fn main(rt: HostRuntime) -> ExitCode {
    match start(&rt) {
        Ok(()) => ExitCode::SUCCESS,
        Err((fault, explains)) => {
            let _ = eprintln!(rt; "{fault}");
            if let (Fault::Manifest(cause), true) = (fault, explains) {
                let _ = eprintln!(rt; "{cause}");
            }
            ExitCode::from(fault.status())
        }
    }
}
