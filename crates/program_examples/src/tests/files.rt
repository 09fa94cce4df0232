// `FileStore` over real files: written and read back, and each way in which it fails here.

use pf_io::{FileStore, ReadFault, Store, StoreErr, WriteFault, read_all, write_all};
use std::fs;
use std::rt::Files;
use std::test::Fail;

// Whether a store over the runtime writes two pieces to a file that isn't there, reads them back, and no less.
fn keeps<R: Files + Print + Eprint + AllocGlobal + Drop>(rt: R, name: &str) -> Result<bool, Fail> {
    let alloc = rt.alloc();
    let mut store = FileStore::new(rt);
    let is_missing = read_all(alloc, &mut store, name, 100).err() == Some(ReadFault::CannotOpen);
    store.create(name)?;
    write_all(&mut store, b"hello ")?;
    write_all(&mut store, b"world")?;
    let whole = read_all(alloc, &mut store, name, 11)?;
    let is_longer = read_all(alloc, &mut store, name, 10).err() == Some(ReadFault::TooLarge);
    Ok(is_missing && is_longer && whole.as_slice() == b"hello world".as_slice())
}

// Why such a store doesn't read the file.
fn fault_of<R: Files + Print + Eprint + AllocGlobal + Drop>(
    rt: R,
    name: &str,
) -> Option<ReadFault> {
    let alloc = rt.alloc();
    read_all(alloc, &mut FileStore::new(rt), name, 100).err()
}

// Whether such a store creates the file as it must, and then can't write to it.
fn takes_nothing<R: Files + Print + Eprint + AllocGlobal + Drop>(
    rt: R,
    name: &str,
    created: Result<(), StoreErr>,
) -> bool {
    let mut store = FileStore::new(rt);
    store.create(name) == created && write_all(&mut store, b"hello") == Err(WriteFault::WriteFailed)
}

#[test]
fn a_real_file_is_written_and_read_back(rt: HostRuntime) -> Result<(), Fail> {
    let name = "pf_io_written_and_read_back.txt";
    assert!(rt; keeps(&rt, name)?);
    fs::remove_file(&rt, name)?;
    Ok(())
}

#[test]
fn what_is_said_goes_out(rt: HostRuntime) {
    assert_eq!(rt; FileStore::new(&rt).say(b"said\n"), Ok(()));
}

#[test]
fn a_file_that_is_not_there_cannot_be_opened(rt: HostRuntime) {
    assert_eq!(rt; fault_of(&rt, "no_such_file"), Some(ReadFault::CannotOpen));
}

#[test]
fn a_folder_cannot_be_read(rt: HostRuntime) {
    assert_eq!(rt; fault_of(&rt, "."), Some(ReadFault::ReadFailed));
}

#[test]
fn nothing_is_created_in_a_folder_that_is_not_there(rt: HostRuntime) {
    assert!(rt; takes_nothing(&rt, "no_such_folder/out", Err(StoreErr::Failed)));
}

#[test]
fn a_full_device_takes_nothing(rt: HostRuntime) {
    assert!(rt; takes_nothing(&rt, "/dev/full", Ok(())));
}
