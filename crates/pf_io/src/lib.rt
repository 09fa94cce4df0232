// The outside of the program: stores of files, in memory and of the system, and what is read from and
// written to them. It stands on pf_num alone.
#![tactic(auto)]

mod decimal;
mod fault_counts;
mod file_store;
mod gate;
mod mem_store;
mod store;
mod system;
mod transfer;

pub use decimal::push_decimal;
pub use file_store::FileStore;
pub use gate::{Gate, Meet, Open, Phase};
pub use mem_store::{MemFile, MemStore};
pub use store::{Store, StoreErr};
pub use transfer::{ReadFault, WriteFault, read_all, write_all};
