// What a kernel's expressions can be on given particles: intervals as a second meaning of the syntax tree.
// It stands on the meaning of kernels in kern_meaning and the particles of pf_model.
#![tactic(auto)]

mod bodies;
mod expression;
mod field;
mod interval;
mod names;
mod operators;
mod product;
mod range;
mod verdict;

pub use expression::Walk;
pub use interval::{Bad, Interval};
pub use names::names_of;
pub use range::{Range, Spans};
pub use verdict::Verdict;
