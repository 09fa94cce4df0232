// Lane code: instructions on registers, what they do for one item of a list against one particle, and which codes
// are valid. It stands on the numbers of pf_num and the particles of pf_model.
#![tactic(auto)]

mod code;
mod instruction;
mod instructions;
mod laws;
mod rules;

pub use code::{BadCode, Code, RawCode, validate};
pub use instruction::{Instr, Lane, Relation};
pub use instructions::Instructions;
pub use laws::each_instruction_is_fine;
