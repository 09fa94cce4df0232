// How bodies change ranks: each rank takes out what it no longer owns, one parcel for each other rank, and
// joins by id what has come. It stands on multisection, with the parcels' names of let_inbox, the bodies of
// pf_model and the want of memory of pf_num.
#![tactic(auto)]

mod laws;
mod leaving;
mod parcel;
mod rank_state;
mod settling;

pub use laws::{each_particle_is_with_its_owner, each_rank_has_its_own, ranks_together_have_all};
pub use leaving::leave;
pub use parcel::Parcel;
pub use rank_state::RankState;
pub use settling::settle;
