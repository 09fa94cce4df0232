// Reading a kernel: from its tokens to its syntax tree, or to the first fault.
// It stands on the tree and the grammar of kern_tree, and passes on the printer of kern_print.
#![tactic(auto)]

mod declaration;
mod expression;
mod kinds;
mod laws;
mod nodes;
mod operators;
mod reader;
mod reading;
mod statement;

pub use kern_print::{canonical_reads_back, print};
pub use kern_token::{KernFault, Name, Token};
pub use kern_tree::{Act, Combine, Decl, DeclKind, Expr, Form, Kernel, Kind, Op1, Op2, Op3, Stmt};
pub use laws::{some_answer, unexpected_is_the_stop};
pub use reading::parse;
