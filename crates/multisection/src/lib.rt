// The domains of ranks: the cube is cut along x, each slab along y and each column along z, so that every
// rank owns nearly as many particles. It stands on pf_model, with the points of pf_geom and the want of
// memory of pf_num.
#![tactic(auto)]

mod cuts;
mod cutting;
mod domains;
mod site;
mod slab;

pub use domains::{Domains, make_domains, owner, ranks, target};
