ghost use Rattle.std.specs.Prelude.{◌≡◌, ◌-◌, ◌<◌, ◌^◌};
ghost use Rattle.pf_io.specs.Store.{no_faults, one_more_open, one_more_read, one_more_create, one_more_write, one_more_say};

use std::marker::Model;

/// How often each method of a store failed.
#[derive(Clone, Copy, Debug)]
pub(crate) struct FaultCounts {
    opens: u64,
    reads: u64,
    creates: u64,
    writes: u64,
    says: u64,
}

impl Model for FaultCounts {
    ghost use Rattle.pf_io.specs.Store.{Faults};

    ghost Value = { Faults };

    ghost view = { λ f. record {
      opens = f.opens;
      reads = f.reads;
      creates = f.creates;
      writes = f.writes;
      says = f.says;
    } };

    ghost inverse = { λ f. record {
      opens = f.opens;
      reads = f.reads;
      creates = f.creates;
      writes = f.writes;
      says = f.says;
    } };
}

impl FaultCounts {
    pub(crate) const fn new() -> FaultCounts
        ensures { result ≡ no_faults }
    {
        FaultCounts {
            opens: 0,
            reads: 0,
            creates: 0,
            writes: 0,
            says: 0,
        }
    }

    pub(crate) fn count_open(&mut self)
        requires { self.old.opens < 2 ^ 64 - 1 }
        ensures { self.new ≡ one_more_open self.old }
    {
        self.opens += 1;
    }

    pub(crate) fn count_read(&mut self)
        requires { self.old.reads < 2 ^ 64 - 1 }
        ensures { self.new ≡ one_more_read self.old }
    {
        self.reads += 1;
    }

    pub(crate) fn count_create(&mut self)
        requires { self.old.creates < 2 ^ 64 - 1 }
        ensures { self.new ≡ one_more_create self.old }
    {
        self.creates += 1;
    }

    pub(crate) fn count_write(&mut self)
        requires { self.old.writes < 2 ^ 64 - 1 }
        ensures { self.new ≡ one_more_write self.old }
    {
        self.writes += 1;
    }

    pub(crate) fn count_say(&mut self)
        requires { self.old.says < 2 ^ 64 - 1 }
        ensures { self.new ≡ one_more_say self.old }
    {
        self.says += 1;
    }
}
