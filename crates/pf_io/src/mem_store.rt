ghost use Rattle.std.specs.Prelude.{◌≡◌, ◌≢◌, ◌+◌, ◌-◌, ◌<◌, ◌^◌, ◌↔◌, ◌⊎◌, ◌++◌, Err, None, Some, [], min, take, drop, length, slice_get, position, is_ok, is_some, option_map, option_copied, IsTrue, IfOk, OnOk, OnErr, if◌then◌else◌};
ghost use Rattle.std.specs.Str.{bytes_eq};
ghost use Rattle.pf_io.specs.Store.{with_contents, after_create, after_write, one_more_open, one_more_read, one_more_create, one_more_write, one_more_say};
ghost use Rattle.pf_io.specs.MemoryStore.{contents_of, fails_next, fails_by_number, next_count, one_more_call, after_err, told_of, sink_of, is_steady_of, fresh_store};

use crate::fault_counts::FaultCounts;
use crate::store::{Store, StoreErr};
use std::alloc::{AllocError, Global};
use std::marker::Model;

/// A file of a store in memory.
#[derive(Debug, Drop)]
pub struct MemFile {
    pub name: Vec<u8>,
    pub bytes: Vec<u8>,
}

impl Model for MemFile {
    ghost use Rattle.pf_io.specs.MemoryStore.{NamedBytes};

    ghost Value = { NamedBytes };

    ghost view = { λ f. record { name = f.name.items; bytes = f.bytes.items } };
}

impl MemFile {
    fn is_named(&self, name: &str) -> bool
        ensures { result ≡ bytes_eq name.now self.now.name }
    {
        name.as_bytes() == self.name.as_slice()
    }

    fn contents(&self) -> &[u8]
        ensures { result.now ≡ self.now.bytes }
    {
        &self.bytes
    }

    fn clear(&mut self)
        ensures { self.new ≡ record self.old { bytes = [] } }
    {
        self.bytes.clear();
    }

    fn append(&mut self, piece: &[u8]) -> Result<(), AllocError>
        ensures { self.new ≡ record self.old {
          bytes = (if is_ok result then self.old.bytes ++ piece.now else self.old.bytes);
        } }
    {
        self.bytes.extend_from_slice(piece)
    }
}

/// The place of the named file, the first one of that name.
fn place_of(files: &[MemFile], name: &str) -> Option<usize>
    ensures { result ≡ position (λ f. bytes_eq name.now f.name) files.now }
{
    files.iter().position(|file| file.is_named(name))
}

/// The bytes of a source, and how many of them were read.
#[derive(Debug, Drop)]
struct Source {
    bytes: Vec<u8>,
    done: usize,
}

impl Model for Source {
    ghost use Rattle.std.specs.Prelude.{ℕ, List, ◌≤◌, drop, vec_len};

    ghost Value = { List ℕ };

    ghost view = { λ s. drop s.done s.bytes.items };

    ghost invariant = { λ s. s.done ≤ vec_len s.bytes };
}

impl Source {
    /// Moves the next bytes into the buffer, at most `most`, and answers how many.
    fn read(&mut self, buf: &mut [u8], most: usize) -> usize
        ensures count { result ≡ min (min (length self.old) (length buf.old)) most }
        ensures bytes { buf.new ≡ take result self.old ++ drop result buf.old }
        ensures rest { self.new ≡ drop result self.old }
    {
        let n = (self.bytes.len() - self.done).min(buf.len()).min(most);
        buf[..n].copy_from_slice(&self.bytes[self.done..self.done + n]);
        self.done += n;
        n
    }
}

/// Counts a call, and says whether it is to fail by its number.
fn count_call(calls: &mut u64, fails: &[u64]) -> bool
    ensures value { result ≡ fails_next fails.now calls.old }
    ensures counted { calls.new ≡ next_count calls.old }
{
    if *calls == u64::MAX {
        return false;
    }
    *calls += 1;
    fails.contains(calls)
}

/// Empties the named file, or adds an empty one, and answers its place. Without memory all stays.
fn create_in(alloc: Global, files: &mut Vec<MemFile>, name: &str) -> Result<usize, AllocError>
    ensures first { IfOk result (λ i. position (λ f. bytes_eq name.now f.name) files.new.items ≡ Some i) }
    ensures named { IfOk result (λ i. slice_get files.new.items i ≡ Some (record { name = name.now; bytes = [] })) }
    ensures contents { OnOk result (contents_of files.new.items
        ≡ with_contents (contents_of files.old.items) name.now []) }
    ensures err { OnErr result (files.new.items ≡ files.old.items) }
{
    if let Some(i) = place_of(files, name) {
        files[i].clear();
        return Ok(i);
    }
    let file = MemFile {
        name: Vec::from_slice(alloc, name.as_bytes())?,
        bytes: Vec::new(alloc),
    };
    let i = files.len();
    files.push(file)?;
    Ok(i)
}

/// A store of files in memory, for tests: it fails at chosen calls, and moves few bytes at a time.
#[derive(Debug, Drop)]
pub struct MemStore {
    alloc: Global,
    files: Vec<MemFile>,
    source: Option<Source>,
    sink: Option<usize>,
    said: Vec<u8>,
    faults: FaultCounts,
    fails: Vec<u64>,
    calls: u64,
    most: usize,
}

impl Model for MemStore {
    ghost use Rattle.std.specs.Prelude.{◌<◌, IfSome};
    ghost use Rattle.pf_io.specs.MemoryStore.{MemoryStore, IsFirstOfItsName};

    ghost Value = { MemoryStore };

    ghost view = { λ s. record {
      files = s.files.items;
      source = s.source;
      sink = s.sink;
      said = s.said.items;
      faults = s.faults;
      fails = s.fails.items;
      calls = s.calls;
      most = s.most;
    } };

    ghost invariant = { λ s. (0 < s.most) × IfSome s.sink (IsFirstOfItsName s.files.items) };
}

impl MemStore {
    /// A store of these files, of which the first is meant where two have one name. The calls whose numbers `fails`
    /// has, counted from 1 over all methods, are to fail, and a call of `read` or `write` moves at most `most` bytes.
    pub fn new(alloc: Global, files: Vec<MemFile>, fails: Vec<u64>, most: usize) -> MemStore
        requires { 0 < most }
        ensures { result ≡ fresh_store files.items fails.items most }
    {
        MemStore {
            alloc,
            files,
            source: None,
            sink: None,
            said: Vec::new(alloc),
            faults: FaultCounts::new(),
            fails,
            calls: 0,
            most,
        }
    }

    /// The bytes of the named file, or `None` exactly where there is none.
    pub fn contents(&self, name: &str) -> Option<&[u8]>
        ensures { option_copied result ≡ (told_of self.now).files name.now }
    {
        self.files
            .iter()
            .find(|file| file.is_named(name))
            .map(|file| file.contents())
    }

    /// All that was said.
    pub fn said(&self) -> &[u8]
        ensures { result.now ≡ (told_of self.now).said }
    {
        &self.said
    }
}

impl Store for MemStore {
    ghost told = { λ s. Some (told_of s) };

    ghost has_source = { λ s. is_some s.source };

    ghost has_sink = { λ s. is_some (sink_of s) };

    ghost faults = { λ s. s.faults };

    ghost is_steady = { is_steady_of };

    fn open(&mut self, name: &str) -> Result<(), StoreErr>
        requires { self.old.faults.opens < 2 ^ 64 - 1 }

        // A call fails exactly by its number or the method's own cause, and gives up otherwise only for want of memory.
        ensures fails { result ≡ Err StoreErr.Failed
            ↔ IsTrue (fails_by_number self.old) ⊎ contents_of self.old.files name.now ≡ None }
        ensures opened { OnOk result (self.new
            ≡ record (one_more_call self.old) { source = contents_of self.old.files name.now }) }
        ensures err { OnErr result (self.new ≡ after_err one_more_open result self.old) }
    {
        let fails = count_call(&mut self.calls, &self.fails);
        let Some(contents) = self.contents(name).filter(|_| !fails) else {
            self.faults.count_open();
            return Err(StoreErr::Failed);
        };
        let Ok(bytes) = Vec::from_slice(self.alloc, contents) else {
            return Err(StoreErr::Memory);
        };
        self.source = Some(Source { bytes, done: 0 });
        Ok(())
    }

    fn read(&mut self, buf: &mut [u8]) -> Result<usize, StoreErr>
        requires { self.old.faults.reads < 2 ^ 64 - 1 }

        ensures fails { result ≡ Err StoreErr.Failed ↔ IsTrue (fails_by_number self.old) ⊎ self.old.source ≡ None }
        ensures no_memory { result ≢ Err StoreErr.Memory }
        ensures count { IfOk result (λ n.
            n ≡ min (min (length (told_of self.old).unread) (length buf.old)) self.old.most) }
        ensures end { IfOk result (λ n. n ≡ 0 → 0 < length buf.old → (told_of self.old).unread ≡ []) }
        ensures bytes { IfOk result (λ n. buf.new ≡ take n (told_of self.old).unread ++ drop n buf.old) }
        ensures buffer_stays { OnErr result (buf.new ≡ buf.old) }
        ensures taken { IfOk result (λ n. self.new
            ≡ record (one_more_call self.old) { source = option_map (drop n) self.old.source }) }
        ensures err { OnErr result (self.new ≡ after_err one_more_read result self.old) }
    {
        let fails = count_call(&mut self.calls, &self.fails);
        match &mut self.source {
            Some(source) if !fails => Ok(source.read(buf, self.most)),
            _ => {
                self.faults.count_read();
                Err(StoreErr::Failed)
            }
        }
    }

    fn create(&mut self, name: &str) -> Result<(), StoreErr>
        requires { self.old.faults.creates < 2 ^ 64 - 1 }

        ensures fails { result ≡ Err StoreErr.Failed ↔ IsTrue (fails_by_number self.old) }
        ensures created { OnOk result (told_of self.new ≡ after_create name.now (told_of self.old)) }
        ensures rest_stays { OnOk result (self.new
            ≡ record (one_more_call self.old) { files = self.new.files; sink = self.new.sink }) }
        ensures err { OnErr result (self.new ≡ after_err one_more_create result self.old) }
    {
        if count_call(&mut self.calls, &self.fails) {
            self.faults.count_create();
            return Err(StoreErr::Failed);
        }
        let Ok(i) = create_in(self.alloc, &mut self.files, name) else {
            return Err(StoreErr::Memory);
        };
        self.sink = Some(i);
        Ok(())
    }

    fn write(&mut self, piece: &[u8]) -> Result<usize, StoreErr>
        requires { self.old.faults.writes < 2 ^ 64 - 1 }

        ensures fails { result ≡ Err StoreErr.Failed ↔ IsTrue (fails_by_number self.old) ⊎ sink_of self.old ≡ None }
        ensures count { IfOk result (λ n. n ≡ min (length piece.now) self.old.most) }
        ensures some { IfOk result (λ n. 0 < length piece.now → 0 < n) }
        ensures written { IfOk result (λ n. told_of self.new ≡ after_write (take n piece.now) (told_of self.old)) }
        ensures rest_stays { OnOk result (self.new ≡ record (one_more_call self.old) { files = self.new.files }) }
        ensures err { OnErr result (self.new ≡ after_err one_more_write result self.old) }
    {
        let fails = count_call(&mut self.calls, &self.fails);
        match self.sink {
            Some(i) if !fails => {
                let n = piece.len().min(self.most);
                if self.files[i].append(&piece[..n]).is_err() {
                    return Err(StoreErr::Memory);
                }
                Ok(n)
            }
            _ => {
                self.faults.count_write();
                Err(StoreErr::Failed)
            }
        }
    }

    fn say(&mut self, text: &[u8]) -> Result<(), StoreErr>
        requires { self.old.faults.says < 2 ^ 64 - 1 }

        ensures fails { result ≡ Err StoreErr.Failed ↔ IsTrue (fails_by_number self.old) }
        ensures said { OnOk result (self.new ≡ record (one_more_call self.old) { said = self.old.said ++ text.now }) }
        ensures err { OnErr result (self.new ≡ after_err one_more_say result self.old) }
    {
        if count_call(&mut self.calls, &self.fails) {
            self.faults.count_say();
            return Err(StoreErr::Failed);
        }
        self.said
            .extend_from_slice(text)
            .map_err(|_| StoreErr::Memory)
    }

    ghost use Rattle.pf_io.specs.MemoryStoreLaws.{names_sink, has_sink_among};

    ghost names_its_sink = { names_sink };

    ghost has_its_sink = { has_sink_among };
}
