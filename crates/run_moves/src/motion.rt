ghost use Rattle.std.specs.Prelude.{◌≡◌, ◌<◌, ◌≤◌, ◌^◌, length, not, sum_by, take_while};
ghost use Rattle.run_model.specs.Force.{acc_place as place_of_acc, axes_of, is_acc as is_acc_of};

use kern_tree::Kind;
use kern_types::{ForceVar, Typed, forces, forces_and_slots_are_few, kernel};
use pf_geom::Edge;
use pf_model::Theta;

/// What moves a particle besides its velocity and the forces on it.
#[derive(Clone, Copy, Debug)]
pub struct Motion {
    /// How many numbers stand before those of `acc` in the forces on a particle.
    pub acc_place: u32,
    pub edge: Edge,
    pub dt: u32,
}

impl Motion {
    /// What moves the particles of a run with this kernel.
    pub fn of(t: &Typed, theta: Theta, dt: u32) -> Motion
        ensures place { result.acc_place ≡ place_of_acc t.now }
        ensures edge { result.edge ≡ theta.edge }
        ensures dt { result.dt ≡ dt }
    {
        forces_and_slots_are_few();
        let _kernel = kernel(t);
        Motion {
            acc_place: acc_place(forces(t)),
            edge: theta.edge,
            dt,
        }
    }
}

// How many numbers the variables before `acc` have.
fn acc_place(forces: &[ForceVar]) -> u32
    requires { length forces.now < 2 ^ 30 }
    ensures { result ≡ sum_by (λ v. length (axes_of v.kind)) (take_while (λ v. not (is_acc_of v)) forces.now) }
{
    let mut place = 0;
    for v in forces {
        if is_acc(v) {
            return place;
        }
        place += width(v.kind);
    }
    place
}

fn is_acc(v: &ForceVar) -> bool
    ensures { result ≡ is_acc_of v.now }
{
    v.name.as_bytes() == b"acc".as_slice()
}

// How many numbers a variable of this kind has.
fn width(kind: Kind) -> u32
    ensures value { result ≡ length (axes_of kind) }
    ensures few { result ≤ 3 }
{
    match kind {
        Kind::Num => 1,
        Kind::Vec3 => 3,
    }
}
