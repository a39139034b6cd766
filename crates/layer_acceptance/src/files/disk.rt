//! Files of the system, standard output and other writers. Each test takes away what it wrote.

use crate::files::memory::{is_too_long, load_and_store, load_fails, loads};
use fs_base::disk::DiskFiles;
use fs_base::outside::{Files, Sink, StoreError};
use fs_base::put_all::{PutError, put_all};
use fs_base::writers::{WriterSink, write_whole};
use std::alloc::Global;
use std::io::Write;
use std::{fs, io};

// Whether files answer where there is a folder 'folder' and nothing else.
fn answer_beside_a_folder<F: Files>(alloc: Global, files: &mut F) -> bool {
    files.store(alloc, "a", b"three") == Ok(())
        && load_and_store(alloc, files)
        && load_fails(alloc, files, "missing")
        && load_fails(alloc, files, "folder")
        && files.store(alloc, "folder", b"three") == Err(StoreError::Failed)
}

// Whether bytes that are stored are loaded within their number, and not within one less.
fn are_kept<F: Files>(alloc: Global, files: &mut F, bytes: &[u8]) -> bool {
    let limit = bytes.len() as u64;
    files.store(alloc, "sized", bytes) == Ok(())
        && loads(alloc, files, "sized", limit, bytes)
        && (limit == 0 || is_too_long(alloc, files, "sized", limit - 1))
}

// The same of so many bytes.
fn keeps<F: Files>(alloc: Global, files: &mut F, count: usize) -> bool {
    match vec![in alloc; b'x'; count] {
        Ok(bytes) => are_kept(alloc, files, bytes.as_slice()),
        Err(_) => false,
    }
}

// A file is read by parts of 8,192 bytes: none, one part, a byte more, and several parts.
#[test]
fn files_and_folders(rt: HostRuntime) {
    for count in &[0, 8_192, 8_193, 20_000] {
        assert!(rt;
            keeps(rt.alloc(), &mut DiskFiles::new(&rt), *count),
            "{count} bytes"
        );
    }
    assert!(rt; fs::remove_file(&rt, "sized").is_ok() && fs::create_dir(&rt, "folder").is_ok());
    assert!(rt; answer_beside_a_folder(rt.alloc(), &mut DiskFiles::new(&rt)));
    assert!(rt; fs::remove_file(&rt, "a").is_ok() && fs::remove_dir(&rt, "folder").is_ok());
}

// A pipe that takes at most so many bytes of each write.
#[derive(Drop)]
struct NarrowPipe {
    taken: Vec<u8>,
    most: usize,
}

impl Write for NarrowPipe {
    fn write(&mut self, buf: &[u8]) -> io::Result<usize> {
        let count = self.most.min(buf.len());
        self.taken.extend_from_slice(&buf[..count])?;
        Ok(count)
    }

    fn flush(&mut self) -> io::Result<()> {
        Ok(())
    }
}

// Whether a sink round this pipe takes three bytes of a put, and all bytes by more.
fn sink_takes_few(pipe: &mut NarrowPipe) -> bool {
    let mut out = WriterSink::new(pipe);
    out.put(b"") == Ok(0)
        && out.put(b"equivalent") == Ok(3)
        && put_all(&mut out, b"ivalent\n") == Ok(())
}

// Whether a pipe that took nothing, and takes three bytes at most, answers.
fn takes_few(pipe: &mut NarrowPipe) -> bool {
    sink_takes_few(pipe)
        && write_whole(pipe, b"yes\n") == Ok(())
        && pipe.taken.as_slice() == b"equivalent\nyes\n".as_slice()
}

// Whether a pipe that takes nothing answers.
fn takes_none(pipe: &mut NarrowPipe) -> bool {
    put_all(&mut WriterSink::new(&mut *pipe), b"yes") == Err(PutError { sent: 0 })
        && write_whole(pipe, b"yes") == Err(StoreError::Failed)
        && pipe.taken.is_empty()
}

#[test]
fn writers(rt: HostRuntime) {
    let mut out = WriterSink::new(io::writer(&rt));
    assert!(rt; put_all(&mut out, b"equivalent\n") == Ok(()));
    let mut few = NarrowPipe {
        taken: Vec::new(rt.alloc()),
        most: 3,
    };
    assert!(rt; takes_few(&mut few));
    let mut none = NarrowPipe {
        taken: Vec::new(rt.alloc()),
        most: 0,
    };
    assert!(rt; takes_none(&mut none));
}
