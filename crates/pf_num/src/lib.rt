// Whole-number arithmetic that never wraps, and the one error that only memory can cause.
// It stands on nothing but std.
#![tactic(auto)]

mod checked;
mod fault;
mod inner_product;
mod memory;
mod quotient;
mod scale;
mod square_root;

pub use checked::{checked_abs, checked_add, checked_mul, checked_neg, checked_sub};
pub use fault::NumFault;
pub use inner_product::dot;
pub use memory::OutOfMemory;
pub use quotient::{checked_div, muldiv};
pub use scale::rescale;
pub use square_root::{isqrt, root};
