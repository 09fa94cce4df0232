// The canonical text of a kernel, which reads as that kernel again but for places.
// It stands on the tree of kern_tree.
#![tactic(auto)]

mod decl;
mod expr;
mod frame;
mod kernel;
mod laws;
mod pushing;
mod stmt;

pub use kernel::print;
pub use laws::canonical_reads_back;
