//! The program: `vurnda FOLDER WORD ..` is one call over the real objects, on the store that lies in the folder, and
//! ends with its status.
#![tactic(auto)]

use folder_disk::{FolderDisk, SystemClock};
use io_edges::OpenGate;
use std::process::ExitCode;
use trace_shell::{
    Given, StdinSource, StdoutSink, all_arguments, exit_code, folder_and_words, run,
};
use traceql_types::RegexMaker;

fn main(rt: HostRuntime) -> ExitCode {
    let Given { folder, words } = match folder_and_words(all_arguments(&rt)) {
        Ok(given) => given,
        Err(ending) => return ExitCode::from(ending.status()),
    };
    exit_code(run(
        &rt,
        rt.alloc(),
        words.as_slice(),
        &mut StdinSource::new(rt.stdin()),
        &mut StdoutSink::new(rt.stdout()),
        FolderDisk::new(rt, rt.alloc(), folder),
        &mut SystemClock::new(rt),
        &mut RegexMaker::new(rt.alloc()),
        &OpenGate,
    ))
}
