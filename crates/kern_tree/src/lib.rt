// The syntax tree of the kernel language, its grammar and the laws on it.
// It stands on the tokens of kern_token and the axes of pf_geom.
#![tactic(auto)]

mod expr;
mod kernel;
mod laws;
mod limits;
mod stmt;

pub use expr::{Expr, Form, Op1, Op2, Op3};
pub use kernel::{Combine, Decl, DeclKind, Kernel, Kind};
pub use laws::{one_answer, one_tree, parsed_kernels_keep_limits, trees_by_form};
pub use limits::{MOST_NODES, MOST_OPEN};
pub use stmt::{Act, Stmt};
