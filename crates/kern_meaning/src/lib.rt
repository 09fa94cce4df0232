// What a kernel means for a pair of a particle and an item: the definition Pair, and its plain executor.
// It stands on the typed kernels of kern_types, the particles of pf_model and the numbers of pf_num.
#![tactic(auto)]

mod expression;
mod fault;
mod laws;
mod link;
mod numbers;
mod operators;
mod pairing;
mod prepare;
mod resolve;
mod scratch;
mod statement;
mod stop;
mod value;
mod variable;

pub use fault::{PairFault, PairKind};
pub use laws::typed_kernels_have_one_pair;
pub use pairing::{pair, slot};
pub use prepare::for_kernel;
pub use scratch::Scratch;
pub use stop::{PairStop, Stop};
pub use value::Value;
