// How workers drive ranks in a phase: rank r in worker r mod W, each worker in a thread of its own where one can
// be made. It stands on the gate of pf_io and the want of memory of pf_num.
#![tactic(auto)]

mod hands;
mod workers;

pub use workers::drive;
