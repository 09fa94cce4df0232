use pf_num::OutOfMemory;
use std::alloc::AllocError;
use thiserror::Error;

/// Why nothing is counted.
#[derive(Debug, Drop, Error)]
pub enum BenchFault {
    #[error("out of memory")]
    Memory,
    /// What isn't kept isn't counted.
    #[error("the lists have more than 2^24 entries")]
    Lists,
}

impl From<OutOfMemory> for BenchFault {
    fn from(_error: OutOfMemory) -> Self {
        BenchFault::Memory
    }
}

impl From<AllocError> for BenchFault {
    fn from(_error: AllocError) -> Self {
        BenchFault::Memory
    }
}
