// Calls of real devices that are interrupted, and flushes.
use cf_outside::{Failed, FileShelf, Shelf, Sink, StdSink};
use std::alloc::Allocator;
use std::fs::{Files, Metadata, OpenFile, OpenOptions};
use std::io;
use std::io::{ErrorKind, Read, Seek, SeekFrom, Write};
use std::sync::atomic::{AtomicU64, Ordering};

// Keeps how many bytes it took, at most so many of a write, and flushes or not. Each other call is interrupted if all are to be made
// twice.
#[derive(Drop)]
struct Recorder<'a> {
    taken: &'a AtomicU64,
    most: usize,
    flushes: bool,
    twice: bool,
    waits: bool,
}

impl<'a> Recorder<'a> {
    // Whether this call is interrupted.
    fn is_interrupted(&mut self) -> bool {
        self.waits = self.twice && !self.waits;
        self.waits
    }
}

impl<'a> Write for Recorder<'a> {
    fn write(&mut self, buf: &[u8]) -> io::Result<usize> {
        if self.is_interrupted() {
            return Err(ErrorKind::Interrupted.into());
        }
        let count = self.most.min(buf.len());
        self.taken.fetch_add(count as u64, Ordering::SeqCst);
        Ok(count)
    }

    fn flush(&mut self) -> io::Result<()> {
        if self.is_interrupted() {
            Err(ErrorKind::Interrupted.into())
        } else if self.flushes {
            Ok(())
        } else {
            Err(ErrorKind::BrokenPipe.into())
        }
    }
}

#[test]
fn a_sink_flushes_each_write(rt: HostRuntime) {
    for twice in [false, true] {
        for (most, flushes, wanted) in [
            (9, true, Ok(4)),
            (3, true, Ok(3)),
            (0, true, Err(Failed)),
            (9, false, Err(Failed)),
        ] {
            let taken = AtomicU64::new(0);
            let mut sink = StdSink::new(Recorder {
                taken: &taken,
                most,
                flushes,
                twice,
                waits: false,
            });
            assert_eq!(rt; sink.write(b"abcd"), wanted);
            assert_eq!(rt; taken.load(Ordering::SeqCst), most.min(4) as u64);
        }
    }
}

// The files of a system whose reads are interrupted so often, and then give a byte, or fail. It can do nothing else.
#[derive(Clone, Copy, Drop)]
struct Signals {
    left: u32,
    fails: bool,
}

fn refused<T>() -> io::Result<T> {
    Err(ErrorKind::Unsupported.into())
}

impl Read for Signals {
    fn read(&mut self, buf: &mut [u8]) -> io::Result<usize> {
        if self.left > 0 {
            self.left -= 1;
            return Err(ErrorKind::Interrupted.into());
        }
        if self.fails || buf.is_empty() {
            return Err(ErrorKind::BrokenPipe.into());
        }
        buf[0] = 7;
        Ok(1)
    }
}

impl Write for Signals {
    fn write(&mut self, _buf: &[u8]) -> io::Result<usize> {
        Err(ErrorKind::Unsupported.into())
    }

    fn flush(&mut self) -> io::Result<()> {
        refused()
    }
}

impl Seek for Signals {
    fn seek(&mut self, _pos: SeekFrom) -> io::Result<u64> {
        refused()
    }
}

impl OpenFile for Signals {
    fn metadata(&self) -> io::Result<Metadata> {
        refused()
    }

    fn set_len(&self, _size: u64) -> io::Result<()> {
        refused()
    }

    fn sync_all(&self) -> io::Result<()> {
        refused()
    }

    fn sync_data(&self) -> io::Result<()> {
        refused()
    }
}

impl Files for Signals {
    type File = Signals;

    type Dir = Signals;

    fn open_file(&self, _how: &OpenOptions, _path: &str) -> io::Result<Signals> {
        Ok(*self)
    }

    fn open_dir(&self, _path: &str) -> io::Result<Signals> {
        refused()
    }

    fn metadata(&self, _path: &str) -> io::Result<Metadata> {
        refused()
    }

    fn symlink_metadata(&self, _path: &str) -> io::Result<Metadata> {
        refused()
    }

    fn copy(&self, _from: &str, _to: &str) -> io::Result<u64> {
        refused()
    }

    fn rename(&self, _from: &str, _to: &str) -> io::Result<()> {
        refused()
    }

    fn remove_file(&self, _path: &str) -> io::Result<()> {
        refused()
    }

    fn create_dir(&self, _path: &str) -> io::Result<()> {
        refused()
    }

    fn remove_dir(&self, _path: &str) -> io::Result<()> {
        refused()
    }

    fn remove_dir_all<B: Allocator>(&self, _alloc: B, _path: &str) -> io::Result<()> {
        refused()
    }
}

#[test]
fn a_read_goes_on_after_interruptions(rt: HostRuntime) {
    for (left, fails, wanted) in [
        (0, false, Ok(1)),
        (1000, false, Ok(1)),
        (3, true, Err(Failed)),
    ] {
        let files = Signals { left, fails };
        let mut shelf = FileShelf::new(&files);
        assert!(rt; shelf.open("capture").is_ok());
        let mut buf = [0; 4];
        assert_eq!(rt; shelf.read(&mut buf), wanted);
    }
}
