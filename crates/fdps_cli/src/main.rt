// The program `fdps`: it hands the words after its name to the top call, over the system's files, and ends with the
// exit status of the answer.
#![tactic(auto)]

ghost use Rattle.std.specs.Prelude.{◌≡◌};
ghost use Rattle.std.specs.Process.{exit_status};
ghost use Rattle.top_call.specs.Status.{code_of};

use pf_io::{FileStore, Open};
use std::fs::File;
use std::io::ErrorKind;
use std::process::ExitCode;
use std::rt::Env;
use std::{env, io};
use top_call::{Status, code, fdps};

fn main(rt: HostRuntime) -> ExitCode {
    // A descriptor that was closed at start is the least free one, and would be given to a file of the run: a line for
    // the standard output would then stand in the dumps. So the null device takes it; one more of its files is harmless.
    let _input = File::open(&rt, NULL_DEVICE);
    let _output = File::open(&rt, NULL_DEVICE);
    let _error = File::open(&rt, NULL_DEVICE);
    let alloc = rt.alloc();
    let words = match words_of(&rt) {
        Ok(words) => words,
        Err(error) if error.kind() == ErrorKind::OutOfMemory => return exit_of(&Status::Memory),
        // A word that is no text makes no command.
        Err(_) => Vec::new(alloc),
    };
    let mut store = FileStore::new(rt);
    exit_of(&fdps(&rt, alloc, &words, &mut store, &Open))
}

const NULL_DEVICE: &str = "/dev/null";

// The exit status that tells how the command ended.
fn exit_of(status: &Status) -> ExitCode
    ensures { exit_status result ≡ code_of status.now }
{
    ExitCode::from(code(status))
}

// The words after the program's name.
fn words_of<R: Env + AllocGlobal>(rt: &R) -> io::Result<Vec<String>> {
    Ok(env::args(rt)?.skip(1).collect(rt.alloc())?)
}
