use pf_model::Body;
use std::marker::Model;

/// What a rank has between steps: its bodies, ids ascending.
#[derive(Drop)]
pub struct RankState {
    pub rank: u32,
    pub bodies: Vec<Body>,
}

impl Model for RankState {
    ghost use Rattle.exchange.specs.States.{Holding, AreInIdOrder};

    ghost Value = { Holding };

    ghost view = { λ s. record { rank = s.rank; bodies = s.bodies.items } };

    ghost invariant = { λ s. AreInIdOrder s.bodies.items };
}
