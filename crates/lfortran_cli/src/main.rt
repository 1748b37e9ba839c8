//! The compiler as a program: the words of its command line, the files of the system and the standard
//! streams are handed to the top call, and its answer is the status.
#![tactic(auto)]

use lf_driver::lf_main;
use lf_outside::{
    DiskStore, Lines, Reader, SystemDisk, Writer, all_words, behind_name, open_streams,
};
use std::process::ExitCode;

/// The status where memory runs out before the words are there.
const OUT_OF_MEMORY: u8 = 5;

fn main(rt: HostRuntime) -> ExitCode {
    open_streams(&rt);
    let Ok(words) = all_words(&rt) else {
        return ExitCode::from(OUT_OF_MEMORY);
    };
    let alloc = rt.alloc();
    let mut input = Reader::new(rt.stdin());
    let mut out = Writer::new(rt.stdout());
    let mut err = Lines::new(rt.stderr());
    let mut store = DiskStore::new(SystemDisk::new(rt), alloc);
    let status = lf_main(
        alloc,
        behind_name(words.as_slice()),
        &mut store,
        &mut input,
        &mut out,
        &mut err,
    );
    ExitCode::from(status)
}
