ghost use Rattle.std.specs.Prelude.{◌≡◌, [], ◌∷◌, ◌++◌, pos, take, IfOk, OnOk};
ghost use Rattle.std.specs.List.{AllByRecursion};
ghost use Rattle.text_lines.specs.Written.{written_line};
ghost use Rattle.particle_file.specs.Spelling.{IsPlain};
ghost use Rattle.particle_file.specs.Printing.{number_fields, particles_text};

use crate::Particles;
use pf_geom::Point;
use pf_io::push_decimal;
use pf_model::Body;
use pf_num::OutOfMemory;
use std::alloc::Global;

/// The canonical text of particles whose attributes c4 to c7 are 0.
pub fn print(alloc: Global, particles: &Particles) -> Result<Vec<u8>, OutOfMemory>
    requires { AllByRecursion IsPlain particles.now }
    ensures { IfOk result (λ text. text.items ≡ particles_text particles.now) }
{
    let bodies = particles.bodies.as_slice();
    let mut out = Vec::new(alloc);
    out.extend_from_slice(b"particles 1\ncount ")?;
    push_decimal(&mut out, bodies.len() as i128)?;
    out.push(b'\n')?;
    for body in bodies {
        push_line(&mut out, body)?;
    }
    Ok(out)
}

fn push_line(out: &mut Vec<u8>, body: &Body) -> Result<(), OutOfMemory>
    ensures { OnOk result (out.new.items ≡ out.old.items ++ written_line (number_fields body.now)) }
{
    let others = numbers_after_id(body.at, body.vel, body.mass, body.attr);
    push_decimal(out, i128::from(body.id))?;
    for number in &others {
        out.push(b' ')?;
        push_decimal(out, i128::from(*number))?;
    }
    out.push(b'\n')?;
    Ok(())
}

// The numbers of a particle's line, but for its id.
fn numbers_after_id(at: Point, vel: [i64; 3], mass: u32, attr: [i64; 8]) -> [i64; 11]
    ensures { result ≡ pos at.x ∷ pos at.y ∷ pos at.z ∷ (vel ++ pos mass ∷ [] ++ take 4 attr) }
{
    [
        i64::from(at.x),
        i64::from(at.y),
        i64::from(at.z),
        vel[0],
        vel[1],
        vel[2],
        i64::from(mass),
        attr[0],
        attr[1],
        attr[2],
        attr[3],
    ]
}
