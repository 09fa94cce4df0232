// What the benchmark runs: particles of a generator of numbers, one kernel, and what its deck says.
// It stands on the readers of kernels, on run_model and on pf_model.
#![tactic(auto)]

mod bodies;
mod deck;
mod generator;
mod kernel_text;
mod laws;

pub use bodies::particles;
pub use deck::{DT, GROUP, REUSE, STEPS, grid, theta};
pub use kernel_text::kernel;
pub use laws::{bench_kernels_are_one, bench_text_is_a_kernel};
