ghost use Rattle.std.specs.Prelude.{◌≡◌, suc, List, ◌∷◌, Err, IfOk, IfErr};
ghost use Rattle.particle_file.specs.Columns.{columns, particle_of, AreWithin};
ghost use Rattle.particle_file.specs.Reading.{numbers_in, with_first};
ghost use Rattle.particle_file.specs.declared.columns.Limits.{Limits};

use crate::PartFault;
use pf_geom::Point;
use pf_model::Body;
use text_lines::{Fields, Line, NumberFault, integer_in, numbers_are_found};

/// From which number to which a column goes.
#[derive(Clone, Copy)]
pub(crate) struct Limits {
    pub(crate) least: i64,
    pub(crate) most: i64,
}

const ID: Limits = Limits {
    least: 0,
    most: (1 << 32) - 1,
};

const COORDINATE: Limits = Limits {
    least: 0,
    most: (1 << 30) - 1,
};

const VELOCITY: Limits = Limits {
    least: -(1 << 47),
    most: 1 << 47,
};

const MASS: Limits = Limits {
    least: 1,
    most: (1 << 31) - 1,
};

const ATTRIBUTE: Limits = Limits {
    least: -(1 << 40),
    most: 1 << 40,
};

// The columns of a line: id, position, velocity, mass, and the attributes c0 to c3.
const COLUMNS: [Limits; 12] = [
    ID, COORDINATE, COORDINATE, COORDINATE, VELOCITY, VELOCITY, VELOCITY, MASS, ATTRIBUTE,
    ATTRIBUTE, ATTRIBUTE, ATTRIBUTE,
];

// The numbers of a line's columns.
pub(crate) fn numbers_in(line: Line<'_>) -> Result<[i64; 12], PartFault>
    ensures exact { result ≡ numbers_in line.entry.number 1 columns line.entry.fields }
    ensures within { IfOk result (λ numbers. AreWithin columns numbers) }
{
    numbers_are_found();
    let Line { number, mut fields } = line;
    let mut numbers = [0; 12];
    for i in 0..12 {
        let value = next_number(&mut fields, COLUMNS[i], number, i as u32 + 1)?;
        numbers[i] = value;
    }
    match fields.next_field() {
        Some(_) => Err(PartFault::Field(number, 13)),
        None => Ok(numbers),
    }
}

// The number of the next field, which stands in a column.
fn next_number(
    fields: &mut Fields<'_>,
    limits: Limits,
    line: u32,
    column: u32,
) -> Result<i64, PartFault>
    // Whichever columns follow.
    ensures ok { IfOk result (λ n. (more : List Limits) → numbers_in line column (limits ∷ more) fields.old
        ≡ with_first n (numbers_in line (suc column) more fields.new)) }
    ensures err { IfErr result (λ fault. (more : List Limits)
        → numbers_in line column (limits ∷ more) fields.old ≡ Err fault) }
{
    let Some(field) = fields.next_field() else {
        return Err(PartFault::Field(line, column));
    };
    match integer_in(field, limits.least, limits.most) {
        Ok(number) => Ok(number),
        Err(NumberFault::NoNumber) => Err(PartFault::Field(line, column)),
        Err(NumberFault::OutOfRange) => Err(PartFault::Range(line, column)),
    }
}

// The particle that the numbers of its columns give.
pub(crate) fn body_of(numbers: [i64; 12]) -> Body
    requires { AreWithin columns numbers }
    ensures { result ≡ particle_of numbers }
{
    let [id, x, y, z, vx, vy, vz, mass, c0, c1, c2, c3] = numbers;
    Body {
        id: id as u32,
        at: Point {
            x: x as u32,
            y: y as u32,
            z: z as u32,
        },
        vel: [vx, vy, vz],
        mass: mass as u32,
        attr: [c0, c1, c2, c3, 0, 0, 0, 0],
    }
}
