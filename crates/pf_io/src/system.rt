// Calls of the system on files, by the name of the file.

ghost use Rattle.std.specs.Prelude.{◌≡◌, ◌<◌, ◌≤◌, ◌↔◌, IfOk, length};
ghost use Rattle.std.specs.IoError.{error_kind};

use crate::store::StoreErr;
use std::fs::File;
use std::io::{self, Error, ErrorKind, Read, Write};
use std::rt::Files;

// How often a call is made at most where signals interrupt it.
const MOST_TRIES: u32 = 1000;

// The answer of a call, which is made again where a signal interrupted it.
macro_rules! uninterrupted {
    ($call:expr) => {{
        for _ in 1..MOST_TRIES {
            match $call {
                Err(error) if error.kind() == ErrorKind::Interrupted => {}
                outcome => return outcome,
            }
        }
        $call
    }};
}

// A file that is open, and the name by which it was opened.
#[derive(Drop)]
pub(crate) struct NamedFile<F> {
    name: String,
    file: F,
}

impl<F: Read + Write> NamedFile<F> {
    // Opens a file to read.
    pub(crate) fn open<R: Files<File = F> + Eprint + AllocGlobal>(
        rt: &R,
        name: &str,
    ) -> Result<NamedFile<F>, StoreErr> {
        let owned = String::from_str(rt.alloc(), name).map_err(|_| StoreErr::Memory)?;
        match opened(rt, name) {
            Ok(file) => Ok(NamedFile { name: owned, file }),
            Err(error) => Err(refusal(rt, name, error)),
        }
    }

    // Creates a file to write, or empties it.
    pub(crate) fn create<R: Files<File = F> + Eprint + AllocGlobal>(
        rt: &R,
        name: &str,
    ) -> Result<NamedFile<F>, StoreErr> {
        let owned = String::from_str(rt.alloc(), name).map_err(|_| StoreErr::Memory)?;
        match created(rt, name) {
            Ok(file) => Ok(NamedFile { name: owned, file }),
            Err(error) => Err(refusal(rt, name, error)),
        }
    }

    pub(crate) fn read(&mut self, rt: &impl Eprint, buf: &mut [u8]) -> Result<usize, StoreErr>
        ensures { IfOk result (λ n. n ≤ length buf.old) }
    {
        match read_some(&mut self.file, buf) {
            Ok(n) => Ok(n),
            Err(error) => Err(refusal(rt, self.name.as_str(), error)),
        }
    }

    // Taking nothing of a piece is a fault.
    pub(crate) fn write(&mut self, rt: &impl Eprint, piece: &[u8]) -> Result<usize, StoreErr>
        ensures within { IfOk result (λ n. n ≤ length piece.now) }
        ensures some { IfOk result (λ n. 0 < length piece.now → 0 < n) }
    {
        match write_some(&mut self.file, piece) {
            Ok(0) if !piece.is_empty() => Err(refusal(
                rt,
                self.name.as_str(),
                Error::from(ErrorKind::WriteZero),
            )),
            Ok(n) => Ok(n),
            Err(error) => Err(refusal(rt, self.name.as_str(), error)),
        }
    }
}

fn opened<R: Files>(rt: &R, name: &str) -> io::Result<R::File> {
    uninterrupted!(File::open(rt, name))
}

fn created<R: Files>(rt: &R, name: &str) -> io::Result<R::File> {
    uninterrupted!(File::create(rt, name))
}

fn read_some<F: Read>(file: &mut F, buf: &mut [u8]) -> io::Result<usize>
    ensures { IfOk result (λ n. n ≤ length buf.old) }
{
    uninterrupted!(file.read(buf))
}

fn write_some<F: Write>(file: &mut F, piece: &[u8]) -> io::Result<usize>
    ensures { IfOk result (λ n. n ≤ length piece.now) }
{
    uninterrupted!(file.write(piece))
}

// What an error of the system is to a store. A fault is told on the standard error; where that fails too,
// there is nobody left to tell.
pub(crate) fn refusal(rt: &impl Eprint, name: &str, error: Error) -> StoreErr
    ensures { result ≡ StoreErr.Memory ↔ error_kind error ≡ ErrorKind.OutOfMemory }
{
    let refusal = store_err(error);
    if refusal == StoreErr::Failed {
        let _ = eprintln!(rt; "{name}: {error}");
    }
    refusal
}

// Why the system refused.
fn store_err(error: Error) -> StoreErr
    ensures { result ≡ StoreErr.Memory ↔ error_kind error ≡ ErrorKind.OutOfMemory }
{
    match error.kind() {
        ErrorKind::OutOfMemory => StoreErr::Memory,
        _ => StoreErr::Failed,
    }
}
