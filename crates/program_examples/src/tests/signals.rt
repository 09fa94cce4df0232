// `FileStore` over a runtime whose calls are interrupted: they are made again, and without end that is a fault.

use pf_io::{FileStore, Store, StoreErr, read_all, write_all};
use std::alloc::Allocator;
use std::cell::Cell;
use std::fmt::Display;
use std::fs::{self, Metadata, OpenFile, OpenOptions};
use std::io::{self, Error, ErrorKind, Read, Seek, SeekFrom, Write};
use std::rt::Files;
use std::test::Fail;

// A runtime on whose files each call is interrupted by `each` signals before it is made.
#[derive(Drop)]
struct Signals<R> {
    rt: R,
    each: u32,
    left: Cell<u32>,
}

impl<R> Signals<R> {
    fn new(rt: R, each: u32) -> Signals<R> {
        Signals {
            rt,
            each,
            left: Cell::new(each),
        }
    }
}

impl<R: Alloc> Alloc for Signals<R> {
    type A = R::A;

    fn alloc(&self) -> R::A {
        self.rt.alloc()
    }
}

impl<R: Print> Print for Signals<R> {
    fn print<D: Display + Drop>(&self, value: D) -> io::Result<()> {
        self.rt.print(value)
    }

    fn println<D: Display + Drop>(&self, value: D) -> io::Result<()> {
        self.rt.println(value)
    }

    fn write_all(&self, bytes: &[u8]) -> io::Result<()> {
        self.rt.write_all(bytes)
    }
}

impl<R: Eprint> Eprint for Signals<R> {
    fn eprint<D: Display + Drop>(&self, value: D) -> io::Result<()> {
        self.rt.eprint(value)
    }

    fn eprintln<D: Display + Drop>(&self, value: D) -> io::Result<()> {
        self.rt.eprintln(value)
    }
}

impl<R: Files> Files for Signals<R> {
    type File = Signalled<R::File>;

    type Dir = R::Dir;

    fn open_file(&self, how: &OpenOptions, path: &str) -> io::Result<Signalled<R::File>> {
        let left = self.left.get();
        if left > 0 {
            self.left.set(left - 1);
            return Err(Error::from(ErrorKind::Interrupted));
        }
        self.left.set(self.each);
        Ok(Signalled {
            file: self.rt.open_file(how, path)?,
            each: self.each,
            left: self.each,
        })
    }

    fn open_dir(&self, path: &str) -> io::Result<R::Dir> {
        self.rt.open_dir(path)
    }

    fn metadata(&self, path: &str) -> io::Result<Metadata> {
        self.rt.metadata(path)
    }

    fn symlink_metadata(&self, path: &str) -> io::Result<Metadata> {
        self.rt.symlink_metadata(path)
    }

    fn copy(&self, from: &str, to: &str) -> io::Result<u64> {
        self.rt.copy(from, to)
    }

    fn rename(&self, from: &str, to: &str) -> io::Result<()> {
        self.rt.rename(from, to)
    }

    fn remove_file(&self, path: &str) -> io::Result<()> {
        self.rt.remove_file(path)
    }

    fn create_dir(&self, path: &str) -> io::Result<()> {
        self.rt.create_dir(path)
    }

    fn remove_dir(&self, path: &str) -> io::Result<()> {
        self.rt.remove_dir(path)
    }

    fn remove_dir_all<B: Allocator>(&self, alloc: B, path: &str) -> io::Result<()> {
        self.rt.remove_dir_all(alloc, path)
    }
}

// A file of such a runtime, and how many signals are left before its next call.
#[derive(Drop)]
struct Signalled<F> {
    file: F,
    each: u32,
    left: u32,
}

impl<F> Signalled<F> {
    fn is_interrupted(&mut self) -> bool {
        if self.left > 0 {
            self.left -= 1;
            return true;
        }
        self.left = self.each;
        false
    }
}

impl<F: Read> Read for Signalled<F> {
    fn read(&mut self, buf: &mut [u8]) -> io::Result<usize> {
        if self.is_interrupted() {
            return Err(Error::from(ErrorKind::Interrupted));
        }
        self.file.read(buf)
    }
}

impl<F: Write> Write for Signalled<F> {
    fn write(&mut self, buf: &[u8]) -> io::Result<usize> {
        if self.is_interrupted() {
            return Err(Error::from(ErrorKind::Interrupted));
        }
        self.file.write(buf)
    }

    fn flush(&mut self) -> io::Result<()> {
        self.file.flush()
    }
}

impl<F: Seek> Seek for Signalled<F> {
    fn seek(&mut self, to: SeekFrom) -> io::Result<u64> {
        self.file.seek(to)
    }
}

impl<F: OpenFile> OpenFile for Signalled<F> {
    fn metadata(&self) -> io::Result<Metadata> {
        self.file.metadata()
    }

    fn set_len(&self, size: u64) -> io::Result<()> {
        self.file.set_len(size)
    }

    fn sync_all(&self) -> io::Result<()> {
        self.file.sync_all()
    }

    fn sync_data(&self) -> io::Result<()> {
        self.file.sync_data()
    }
}

// Whether a store over the runtime writes the file and reads it back.
fn keeps<R: Files + Print + Eprint + AllocGlobal + Drop>(rt: R, name: &str) -> Result<bool, Fail> {
    let alloc = rt.alloc();
    let mut store = FileStore::new(rt);
    store.create(name)?;
    write_all(&mut store, b"hello")?;
    Ok(read_all(alloc, &mut store, name, 5)?.as_slice() == b"hello".as_slice())
}

// Whether such a store can't create the file.
fn cannot_create<R: Files + Print + Eprint + AllocGlobal + Drop>(rt: R, name: &str) -> bool {
    FileStore::new(rt).create(name) == Err(StoreErr::Failed)
}

#[test]
fn an_interrupted_call_is_made_again(rt: HostRuntime) -> Result<(), Fail> {
    let name = "pf_io_interrupted.txt";
    assert!(rt; keeps(Signals::new(&rt, 3), name)?);
    fs::remove_file(&rt, name)?;
    Ok(())
}

#[test]
fn an_interruption_without_end_is_a_fault(rt: HostRuntime) {
    assert!(rt; cannot_create(Signals::new(&rt, u32::MAX), "never_created"));
}
