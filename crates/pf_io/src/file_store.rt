ghost use Rattle.std.specs.Prelude.{◌≡◌, None, false};
ghost use Rattle.pf_io.specs.FileStore.{nothing_open};

use crate::fault_counts::FaultCounts;
use crate::store::{Store, StoreErr};
use crate::system::{NamedFile, refusal};
use std::marker::Model;
use std::rt::Files;

/// The system's files, by their paths from the working directory, and the standard output for what is said.
/// Where a call of the system fails, its words go to the standard error, after the name of the file.
#[derive(Drop)]
pub struct FileStore<R: Files + Print + Eprint + AllocGlobal + Drop> {
    rt: R,
    source: Option<NamedFile<R::File>>,
    sink: Option<NamedFile<R::File>>,
    faults: FaultCounts,
}

impl<R: Files + Print + Eprint + AllocGlobal + Drop> Model for FileStore<R> {
    ghost use Rattle.std.specs.Prelude.{is_some};
    ghost use Rattle.pf_io.specs.FileStore.{OpenFiles};

    ghost Value = { OpenFiles };

    ghost view = { λ s. record { has_source = is_some s.source; has_sink = is_some s.sink; faults = s.faults } };
}

impl<R: Files + Print + Eprint + AllocGlobal + Drop> FileStore<R> {
    /// A store with nothing open, whose files and output are those of the runtime.
    pub fn new(rt: R) -> FileStore<R>
        ensures { result ≡ nothing_open }
    {
        FileStore {
            rt,
            source: None,
            sink: None,
            faults: FaultCounts::new(),
        }
    }
}

impl<R: Files + Print + Eprint + AllocGlobal + Drop> Store for FileStore<R> {
    ghost told = { λ _. None };

    ghost has_source = { λ s. s.has_source };

    ghost has_sink = { λ s. s.has_sink };

    ghost faults = { λ s. s.faults };

    ghost is_steady = { λ _. false };

    fn open(&mut self, name: &str) -> Result<(), StoreErr> {
        match NamedFile::open(&self.rt, name) {
            Ok(file) => {
                self.source = Some(file);
                Ok(())
            }
            Err(error) => {
                if error == StoreErr::Failed {
                    self.faults.count_open();
                }
                Err(error)
            }
        }
    }

    fn read(&mut self, buf: &mut [u8]) -> Result<usize, StoreErr> {
        let outcome = match &mut self.source {
            Some(file) => file.read(&self.rt, buf),
            None => Err(StoreErr::Failed),
        };
        if outcome == Err(StoreErr::Failed) {
            self.faults.count_read();
        }
        outcome
    }

    fn create(&mut self, name: &str) -> Result<(), StoreErr> {
        match NamedFile::create(&self.rt, name) {
            Ok(file) => {
                self.sink = Some(file);
                Ok(())
            }
            Err(error) => {
                if error == StoreErr::Failed {
                    self.faults.count_create();
                }
                Err(error)
            }
        }
    }

    fn write(&mut self, piece: &[u8]) -> Result<usize, StoreErr> {
        let outcome = match &mut self.sink {
            Some(file) => file.write(&self.rt, piece),
            None => Err(StoreErr::Failed),
        };
        if outcome == Err(StoreErr::Failed) {
            self.faults.count_write();
        }
        outcome
    }

    fn say(&mut self, text: &[u8]) -> Result<(), StoreErr> {
        // The runtime makes an interrupted call again by itself.
        let outcome = self
            .rt
            .write_all(text)
            .map_err(|error| refusal(&self.rt, "standard output", error));
        if outcome == Err(StoreErr::Failed) {
            self.faults.count_say();
        }
        outcome
    }

    ghost names_its_sink = { λ _. tt };

    ghost has_its_sink = { λ _. tt };
}
