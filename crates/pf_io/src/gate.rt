use std::sync::atomic::{AtomicBool, Ordering};
use std::thread;

/// A part of a step that all workers join before the next one begins.
#[derive(Clone, Copy, Debug, PartialEq, Eq, Hash)]
pub enum Phase {
    /// Each rank puts a parcel of the particles that it no longer owns for every other rank.
    Leave,
    /// Each rank takes the rest of the parcels for it.
    Settle,
    /// Each rank builds its tree and its groups, and puts an essential tree for every other rank.
    Trees,
    /// Each rank takes the rest of the essential trees for it into its lists.
    Gather,
    /// Each worker claims groups and finishes them until none is left.
    Forces,
}

/// What each worker passes once at the start of each phase, so that a test can hold workers there.
pub trait Gate: Sync {
    fn pass(&self, worker: u32, phase: Phase);
}

/// The gate that holds nobody.
#[derive(Clone, Copy, Debug)]
pub struct Open;

impl Gate for Open {
    fn pass(&self, _worker: u32, _phase: Phase) {}
}

/// The test gate: in one phase it holds workers 0 and 1 each until the other has come, or for `MOST_TURNS` turns.
#[derive(Drop)]
pub struct Meet {
    phase: Phase,
    first_came: AtomicBool,
    second_came: AtomicBool,
    gave_up: AtomicBool,
}

/// How many turns a worker waits at most.
const MOST_TURNS: u32 = 500_000_000;

/// After so many turns a waiting worker lets another thread run.
const TURNS_BETWEEN_YIELDS: u32 = 256;

impl Meet {
    /// The gate that holds workers in this phase.
    pub fn meet_in(phase: Phase) -> Meet {
        Meet {
            phase,
            first_came: AtomicBool::new(false),
            second_came: AtomicBool::new(false),
            gave_up: AtomicBool::new(false),
        }
    }

    /// Whether workers 0 and 1 have both come in the phase, and neither let go before the other came.
    pub fn met(&self) -> bool {
        let both = self.first_came.load(Ordering::SeqCst)
            && self.second_came.load(Ordering::SeqCst);
        both && !self.gave_up.load(Ordering::SeqCst)
    }

    // Once a worker was let go, nobody is held.
    fn wait_for(&self, other: &AtomicBool) {
        if self.gave_up.load(Ordering::SeqCst) {
            return;
        }
        for turn in 0..MOST_TURNS {
            if other.load(Ordering::SeqCst) {
                return;
            }
            if turn % TURNS_BETWEEN_YIELDS == 0 {
                thread::yield_now();
            }
        }
        self.gave_up.store(true, Ordering::SeqCst);
    }
}

impl Gate for Meet {
    fn pass(&self, worker: u32, phase: Phase) {
        if phase != self.phase {
            return;
        }
        match worker {
            0 => {
                self.first_came.store(true, Ordering::SeqCst);
                self.wait_for(&self.second_came);
            },
            1 => {
                self.second_came.store(true, Ordering::SeqCst);
                self.wait_for(&self.first_came);
            },
            _ => {},
        }
    }
}
