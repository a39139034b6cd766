//! What the program does: the words of its environment, the files and standard output of the system, and one call of
//! `drive_show`.

use crate::drive::drive_show;
use fs_base::disk::DiskFiles;
use fs_base::writers::WriterSink;
use fsmd_replies::answer::Status;
use fsmd_tool::program::status_without_words;
use std::rt::Runtime;
use std::{env, io};

// The words of the call, without the program's name.
fn words<R: Runtime + AllocGlobal>(rt: &R) -> io::Result<Vec<String>> {
    Ok(env::args(rt)?.skip(1).collect(rt.alloc())?)
}

/// Runs the program in a runtime, and tells how it ended: as `drive_show` does for the words of the environment, and where
/// it gives none, `NoMemory` or `Fault`; then nothing is printed.
pub fn run_program<R: Runtime + AllocGlobal>(rt: &R) -> Status {
    match words(rt) {
        Ok(words) => drive_show(
            rt.alloc(),
            words.as_slice(),
            &mut DiskFiles::new(rt),
            &mut WriterSink::new(io::writer(rt)),
        ),
        Err(error) => status_without_words(&error),
    }
}
