use exchange::RankState;
use pf_model::Body;
use refresh_phase::KeptRank;

/// What is kept of the last build, or of the particles as they were read.
#[derive(Drop)]
pub(crate) struct LastBuild {
    /// The particles as they were, by ascending id.
    pub(crate) bodies: Vec<Body>,
    /// The owner of each, by the same order.
    pub(crate) owners: Vec<u32>,
    /// By number, each with the particles that it owned.
    pub(crate) ranks: Vec<RankState>,
    /// Their trees and lists, where the next step may use them again.
    pub(crate) kept: Vec<KeptRank>,
}
