use pf_model::{Body, Grid, Theta};
use std::marker::Model;

/// The most workers.
pub const MOST_WORKERS: u32 = 64;

/// What a core is opened on.
#[derive(Drop)]
pub struct Setup {
    /// The particles at the build: at most `MOST_PARTICLES`, of distinct ids.
    pub bodies: Vec<Body>,
    pub grid: Grid,
    pub theta: Theta,
    /// The group limit, from 1 to `MOST_GROUP`.
    pub group: u32,
    /// From 1 to `MOST_WORKERS`.
    pub workers: u32,
}

impl Model for Setup {
    ghost use Rattle.step_core.specs.Core.{Settings};

    ghost Value = { Settings };

    ghost view = { λ s. record {
      bodies = s.bodies.items;
      grid = s.grid;
      theta = s.theta;
      limit = s.group;
      workers = s.workers;
    } };
}
