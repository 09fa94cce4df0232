// The types of kernels: kinds and scales of expressions, and names that are assigned on every path.
// It stands on the tree of kern_tree.
#![tactic(auto)]

mod contributions;
mod declarations;
mod expr_type;
mod expressions;
mod fault;
mod fields;
mod force_var;
mod forms;
mod laws;
mod scope;
mod statements;
mod typed;

pub use declarations::declaration;
pub use expr_type::ExprType;
pub use fault::TypeFault;
pub use fields::Field;
pub use force_var::ForceVar;
pub use forms::{one_type, part_type, three_type, to_type, two_type};
pub use laws::{
    assignments_fit, certain_is_on_every_path, contributions_fit, declarations_fit,
    forces_and_slots_are_few, names_keep_their_type, one_typing, scales_fit, scopes_only_grow,
    slots_have_forces,
};
pub use scope::Variable;
pub use typed::{Typed, check, forces, kernel, slots, targets};
