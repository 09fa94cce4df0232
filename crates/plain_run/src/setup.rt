use kern_types::Typed;
use pf_model::{Body, Grid, Theta};
use std::marker::Model;

/// What a run is made from.
#[derive(Drop)]
pub struct RunSetup {
    pub kernel: Typed,
    /// At most `MOST_PARTICLES`, of distinct ids, in any order.
    pub bodies: Vec<Body>,
    pub grid: Grid,
    pub theta: Theta,
    /// The most particles of a group.
    pub group: u32,
    /// The number of the last step.
    pub steps: u32,
    /// The length of a step.
    pub dt: u32,
    /// The steps from a build to the next, at least 1.
    pub reuse: u32,
}

impl Model for RunSetup {
    ghost use Rattle.std.specs.Coded.{codes};
    ghost use Rattle.kern_tree.specs.contracts.kernel.Kernel as kernel_type;
    ghost use Rattle.run_model.specs.Setup.{Setup};
    ghost use Rattle.plain_run.specs.Runs.{IsRunnable};

    ghost Value = { Setup };

    ghost coded = { Prim.hlevel (codes, kernel_type.the_row.coded) };

    ghost view = { λ s. record {
      kernel = s.kernel;
      particles = s.bodies.items;
      grid = s.grid;
      theta = s.theta;
      group = s.group;
      steps = s.steps;
      dt = s.dt;
      reuse = s.reuse;
    } };

    ghost invariant = { λ s. IsRunnable s.bodies.items s.reuse };
}
