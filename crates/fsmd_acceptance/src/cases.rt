//! Cases: what is asked of the program over files in memory, and whether it answers so.

use crate::files::FILES;
use fs_base::memory::MemFiles;
use fs_base::outside::Files;
use fs_base::sinks::MemSink;
use fsmd_replies::answer::Status;
use fsmd_tool::program::drive;
use std::alloc::{AllocError, Global};

/// A command, and how the program answers it over the files of `FILES`.
#[derive(Drop)]
pub struct Case<'a> {
    pub words: &'a str,
    /// The calls of the files that fail; the first call is 0.
    pub fails: &'a [u64],
    /// How many bytes the sink takes in its first calls, one number a call; later calls take all.
    pub takes: &'a [u64],
    pub reply: &'a str,
    pub status: Status,
    /// What `c.json` then holds.
    pub stored: &'a str,
}

/// Whether there is memory, and the program answers as a case says. Where calls are to fail, one more call than those that the
/// program made fails, too.
pub fn is_answered(alloc: Global, case: &Case) -> bool {
    match numbers(alloc, case.fails) {
        Ok(fails) => is_answered_over(alloc, case, &mut MemFiles::new(alloc, fails)),
        Err(_) => false,
    }
}

// The same over files without a file.
fn is_answered_over(alloc: Global, case: &Case, files: &mut MemFiles) -> bool {
    are_held(files)
        && is_put(alloc, case, files)
        && files.get("c.json") == Some(case.stored.as_bytes())
        && (case.fails.is_empty() || files.load(alloc, "a.fsmd", 1_048_576).is_err())
}

// Whether there is memory to add the files.
fn are_held(files: &mut MemFiles) -> bool {
    for (name, text) in &FILES {
        if files.add(name, text.as_bytes()).is_err() {
            return false;
        }
    }
    true
}

fn numbers(alloc: Global, list: &[u64]) -> Result<Vec<u64>, AllocError> {
    let mut all = Vec::new(alloc);
    all.extend_from_slice(list)?;
    Ok(all)
}

// Whether the words of a case put its reply, with its status.
fn is_put(alloc: Global, case: &Case, files: &mut MemFiles) -> bool {
    match (words_of(alloc, case.words), numbers(alloc, case.takes)) {
        (Ok(words), Ok(takes)) => {
            let mut out = MemSink::new(alloc, takes);
            out.reserve(1_000).is_ok()
                && drive(alloc, words.as_slice(), files, &mut out) == case.status
                && out.bytes() == case.reply.as_bytes()
        }
        _ => false,
    }
}

/// The words of a command, which blanks part.
pub fn words_of(alloc: Global, text: &str) -> Result<Vec<String>, AllocError> {
    let mut words = Vec::new(alloc);
    for word in text.split_whitespace() {
        words.push(String::from_str(alloc, word)?)?;
    }
    Ok(words)
}
