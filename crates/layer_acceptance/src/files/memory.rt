//! Files and sinks in memory.

use fs_base::memory::{CleanFiles, MemFiles};
use fs_base::outside::{Files, LoadError, Sink, StoreError};
use fs_base::put_all::{PutError, put_all};
use fs_base::recorded::RecordedFiles;
use fs_base::sinks::{CleanSink, MemSink};
use std::alloc::{AllocError, Global};

/// Whether a name is loaded within so many bytes, and holds these.
pub fn loads<F: Files>(alloc: Global, files: &mut F, name: &str, limit: u64, want: &[u8]) -> bool {
    match files.load(alloc, name, limit) {
        Ok(bytes) => bytes.as_slice() == want,
        Err(_) => false,
    }
}

/// Whether a name holds more than so many bytes.
pub fn is_too_long<F: Files>(alloc: Global, files: &mut F, name: &str, limit: u64) -> bool {
    matches!(files.load(alloc, name, limit), Err(LoadError::TooLong))
}

/// Whether a name can't be loaded.
pub fn load_fails<F: Files>(alloc: Global, files: &mut F, name: &str) -> bool {
    matches!(files.load(alloc, name, 5), Err(LoadError::Failed))
}

/// Whether files that hold 'three' under 'a' answer through the trait: 'two' is stored there.
pub fn load_and_store<F: Files>(alloc: Global, files: &mut F) -> bool {
    loads(alloc, files, "a", 5, b"three")
        && is_too_long(alloc, files, "a", 4)
        && files.store(alloc, "a", b"two") == Ok(())
        && loads(alloc, files, "a", 5, b"two")
}

// Whether 'two' is found under 'a', and no file under 'b'.
fn are_found(a: Option<&[u8]>, b: Option<&[u8]>) -> bool {
    match a {
        Some(bytes) => bytes == b"two".as_slice() && b.is_none(),
        None => false,
    }
}

// Whether files without a file, whose calls 4 and 5 fail, answer.
fn fail_by_a_list(alloc: Global, files: &mut MemFiles) -> bool {
    files.add("a", b"three") == Ok(())
        && load_and_store(alloc, files)
        && load_fails(alloc, files, "a")
        && files.store(alloc, "a", b"four") == Err(StoreError::Failed)
        && load_fails(alloc, files, "b")
        && are_found(files.get("a"), files.get("b"))
}

// Whether files without a file answer.
fn never_fail(alloc: Global, files: &mut CleanFiles) -> bool {
    files.add("a", b"three") == Ok(())
        && load_and_store(alloc, files)
        && loads(alloc, files, "b", 0, b"")
        && are_found(files.get("a"), files.get("b"))
}

// Whether these are the names that were loaded.
fn has_loaded<F: Files>(files: &RecordedFiles<F>, want: &str) -> bool {
    let Some(names) = files.loaded_names() else {
        return false;
    };
    let mut left = want.split_whitespace();
    for name in names {
        if left.next() != Some(name.as_str()) {
            return false;
        }
    }
    left.next().is_none()
}

// Whether files without a file, whose call 5 fails, tell which were loaded.
fn tells_which<F: Files>(alloc: Global, files: &mut RecordedFiles<F>) -> bool {
    files.store(alloc, "a", b"three") == Ok(())
        && has_loaded(files, "")
        && load_and_store(alloc, files)
        && has_loaded(files, "a a a")
        && load_fails(alloc, files, "a")
        && load_fails(alloc, files, "b")
        && has_loaded(files, "a a a a b")
}

#[test]
fn files_in_memory(rt: HostRuntime) -> Result<(), AllocError> {
    let fails = vec![in rt.alloc(); 4, 5]?;
    assert!(rt; fail_by_a_list(rt.alloc(), &mut MemFiles::new(rt.alloc(), fails)));
    assert!(rt; never_fail(rt.alloc(), &mut CleanFiles::new(rt.alloc())));
    let fails = vec![in rt.alloc(); 5]?;
    let within = MemFiles::new(rt.alloc(), fails);
    assert!(rt; tells_which(rt.alloc(), &mut RecordedFiles::new(rt.alloc(), within)));
    Ok(())
}

// Whether a sink that took nothing answers.
fn takes_all(sink: &mut CleanSink) -> bool {
    sink.put(b"") == Ok(0)
        && sink.reserve(10) == Ok(())
        && sink.room() == Some(10)
        && put_all(sink, b"equivalent") == Ok(())
        && sink.bytes() == b"equivalent".as_slice()
}

// Whether a sink answers this to bytes that are put, and has then taken so many.
fn puts(sink: &mut MemSink, bytes: &[u8], answer: Result<(), PutError>, taken: &[u8]) -> bool {
    put_all(sink, bytes) == answer && sink.bytes() == taken
}

// Whether a sink that takes five bytes, none, three, and then all answers.
fn takes_by_a_list(sink: &mut MemSink) -> bool {
    sink.reserve(9) == Ok(())
        && sink.room().is_none()
        && puts(sink, b"equivalent", Err(PutError { sent: 5 }), b"equiv")
        && puts(sink, b"alent", Err(PutError { sent: 4 }), b"equivalen")
        && puts(sink, b"", Ok(()), b"equivalen")
}

#[test]
fn sinks_in_memory(rt: HostRuntime) -> Result<(), AllocError> {
    assert!(rt; takes_all(&mut CleanSink::new(rt.alloc())));
    let takes = vec![in rt.alloc(); 5, 0, 3]?;
    assert!(rt; takes_by_a_list(&mut MemSink::new(rt.alloc(), takes)));
    Ok(())
}
