use pf_geom::Point;
use std::marker::Model;

/// A particle, within the limits that every part of the program keeps.
#[derive(Clone, Copy, Debug, PartialEq, Eq)]
pub struct Body {
    pub id: u32,
    pub at: Point,
    /// The velocity along x, y and z, with 16 fraction bits, at most 2^47 either way.
    pub vel: [i64; 3],
    /// From 1 to 2^31 - 1.
    pub mass: u32,
    /// The attributes c0 to c7, each at most 2^40 either way.
    pub attr: [i64; 8],
}

impl Model for Body {
    ghost use Rattle.pf_model.specs.Particle.{Particle, HasParticleLimits};

    ghost Value = { Particle };

    ghost view = { λ b. record { id = b.id; at = b.at; vel = b.vel; mass = b.mass; attr = b.attr } };

    ghost invariant = { λ b. HasParticleLimits b.vel b.mass b.attr };

    ghost inverse = { λ p. record { id = p.id; at = p.at; vel = p.vel; mass = p.mass; attr = p.attr } };
}
