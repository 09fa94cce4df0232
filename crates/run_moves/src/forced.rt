use pf_model::Body;
use run_model::Row;
use std::marker::Model;

/// A particle and the forces on it.
#[derive(Debug, Drop)]
pub struct Forced {
    pub body: Body,
    pub forces: Row,
}

impl Model for Forced {
    ghost use Rattle.run_model.specs.Run.{WithForces};

    ghost Value = { WithForces };

    ghost view = { λ f. record { body = f.body; forces = f.forces } };
}
