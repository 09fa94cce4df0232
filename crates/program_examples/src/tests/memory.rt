// `MemStore`: what is written is there, a limit is kept, a call moves few bytes, and the numbered call fails.

ghost use Rattle.std.specs.Prelude.{◌≡◌, ◌<◌, ◌≤◌, ◌^◌, IfOk};
ghost use Rattle.pf_io.specs.Store.{no_faults};

use pf_io::{MemFile, MemStore, ReadFault, Store, read_all, write_all};
use std::alloc::Global;
use std::test::Fail;

// A store with the file `in`, whose calls of these numbers fail and move at most `most` bytes.
fn store_of(alloc: Global, bytes: &str, fails: Vec<u64>, most: usize) -> Result<MemStore, Fail>
    requires { 0 < most }
    ensures { IfOk result (λ store. store.faults ≡ no_faults) }
{
    let mut files = Vec::new(alloc);
    files.push(MemFile {
        name: Vec::from_slice(alloc, b"in")?,
        bytes: Vec::from_slice(alloc, bytes.as_bytes())?,
    })?;
    Ok(MemStore::new(alloc, files, fails, most))
}

// Whether what is written and said is there, and what isn't written isn't.
fn keeps(alloc: Global) -> Result<bool, Fail> {
    let mut store = store_of(alloc, "abc", Vec::new(alloc), 2)?;
    store.create("out")?;
    write_all(&mut store, b"hello")?;
    write_all(&mut store, b"")?;
    store.say(b"done")?;
    let given = read_all(alloc, &mut store, "in", 100)?;
    let written = read_all(alloc, &mut store, "out", 100)?;
    let is_kept = store.contents("out") == Some(b"hello".as_slice())
        && store.contents("other").is_none()
        && store.said() == b"done".as_slice();
    Ok(
        is_kept
            && given.as_slice() == b"abc".as_slice()
            && written.as_slice() == b"hello".as_slice(),
    )
}

#[test]
fn what_is_written_is_there(rt: HostRuntime) -> Result<(), Fail> {
    assert!(rt; keeps(rt.alloc())?);
    Ok(())
}

// Why the file of this name isn't read, up to the limit, from a store with the bytes `abcd` in `in`.
fn fault_of(alloc: Global, name: &str, limit: usize, most: usize) -> Result<Option<ReadFault>, Fail>
    requires most { 0 < most }
    requires limit { limit ≤ 2 ^ 28 }
{
    let mut store = store_of(alloc, "abcd", Vec::new(alloc), most)?;
    match read_all(alloc, &mut store, name, limit) {
        Ok(bytes) if bytes.as_slice() == b"abcd".as_slice() => Ok(None),
        Ok(_) => Err(Fail::from("other bytes")),
        Err(fault) => Ok(Some(fault)),
    }
}

// Whether a store that moves so many bytes at once keeps to a limit.
fn keeps_limit(alloc: Global, most: usize) -> Result<bool, Fail>
    requires { 0 < most }
{
    let whole = fault_of(alloc, "in", 4, most)?;
    let longer = fault_of(alloc, "in", 3, most)?;
    let missing = fault_of(alloc, "out", 4, most)?;
    let is_refused = longer == Some(ReadFault::TooLarge) && missing == Some(ReadFault::CannotOpen);
    Ok(whole.is_none() && is_refused)
}

#[test]
fn a_limit_is_kept_byte_by_byte(rt: HostRuntime) -> Result<(), Fail> {
    assert!(rt; keeps_limit(rt.alloc(), 1)?);
    Ok(())
}

#[test]
fn a_limit_is_kept_by_twos(rt: HostRuntime) -> Result<(), Fail> {
    assert!(rt; keeps_limit(rt.alloc(), 2)?);
    Ok(())
}

#[test]
fn a_limit_is_kept_at_once(rt: HostRuntime) -> Result<(), Fail> {
    assert!(rt; keeps_limit(rt.alloc(), 100)?);
    Ok(())
}

// Whether a call of a store that moves two bytes at once reads and writes two.
fn moves_two(alloc: Global) -> Result<bool, Fail> {
    let mut store = store_of(alloc, "abcd", Vec::new(alloc), 2)?;
    let mut buffer = [0; 3];
    store.open("in")?;
    let read = store.read(&mut buffer)?;
    store.create("out")?;
    let written = store.write(b"xyz")?;
    let is_moved = buffer == *b"ab\0" && store.contents("out") == Some(b"xy".as_slice());
    Ok(is_moved && read == 2 && written == 2)
}

#[test]
fn a_call_moves_few_bytes(rt: HostRuntime) -> Result<(), Fail> {
    assert!(rt; moves_two(rt.alloc())?);
    Ok(())
}

// Which methods of a store fail, called in the order of the trait.
fn failing<S: Store>(store: &mut S) -> [bool; 5]
    requires { S.faults store.old ≡ no_faults }
{
    let open = store.open("in").is_err();
    let read = store.read(&mut [0; 4]).is_err();
    let create = store.create("out").is_err();
    let write = store.write(b"hello").is_err();
    let say = store.say(b"done").is_err();
    [open, read, create, write, say]
}

// Which methods fail where a call by its number does. Without a source a read fails too, and without a sink a write.
const FAILING: [[bool; 5]; 6] = [
    [true, true, false, false, false],
    [false, true, false, false, false],
    [false, false, true, true, false],
    [false, false, false, true, false],
    [false, false, false, false, true],
    [false, false, false, false, false],
];

// The first place of the table with other methods.
fn first_other(alloc: Global, table: &[[bool; 5]]) -> Result<Option<usize>, Fail> {
    for (place, wanted) in table.iter().enumerate() {
        let mut fails = Vec::new(alloc);
        fails.push(place as u64 + 1)?;
        let mut store = store_of(alloc, "abc", fails, 100)?;
        if failing(&mut store) != *wanted {
            return Ok(Some(place));
        }
    }
    Ok(None)
}

#[test]
fn the_numbered_call_fails(rt: HostRuntime) -> Result<(), Fail> {
    assert_eq!(rt; first_other(rt.alloc(), &FAILING)?, None);
    Ok(())
}
