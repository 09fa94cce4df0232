// Kernels compiled to lane code, whose code means the kernel: in each lane it faults exactly where the pair does, and
// else gives the pair's contributions. It stands on lane_code, and on the meaning of kernels in kern_meaning.
#![tactic(auto)]

mod acts;
mod compiled;
mod expression;
mod place;
mod statement;
mod variable;
mod writer;

pub use compiled::{Compiled, compile};
