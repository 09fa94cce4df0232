// Particle files: the particles that a text spells, or its first fault, and the text of particles.
// It stands on text_lines, pf_model, pf_geom, pf_io and pf_num.
#![tactic(auto)]

mod columns;
mod fault;
mod laws;
mod particles;
mod printing;
mod reading;

pub use fault::PartFault;
pub use laws::{printed_particles_read_back, reading_is_spelling};
pub use particles::{Particles, bodies, of_bodies};
pub use printing::print;
pub use reading::read;
