ghost use Rattle.std.specs.Prelude.{◌≡◌, ◌+◌, ◌*ℤ◌, pos, length};
ghost use Rattle.std.specs.Int.{int_min, int_max};
ghost use Rattle.pf_num.specs.Exact.{exact};
ghost use Rattle.kern_range.specs.Bodies as rules;
ghost use Rattle.kern_range.specs.Intervals.{narrow};

use crate::field::{field_named, fits, particle_has, source_has};
use crate::interval::{Bad, Interval, kept, only, wider, with_ends};
use crate::range::{Range, num, vec_of};
use kern_token::Name;
use kern_tree::{DeclKind, Kind};
use pf_model::{Body, Field};
use pf_num::{NumFault, checked_mul};

// The greatest coordinate.
const MOST_COORDINATE: i64 = (1 << 30) - 1;

// The greatest component of a velocity.
const MOST_VELOCITY: i64 = 1 << 47;

/// What a declared name can be at the start of a pair of these particles.
pub(crate) fn declared_range(what: &DeclKind, first: &Body, others: &[Body]) -> Result<Range, Bad>
    ensures { result ≡ rules.declared_range first.now others.now what.now }
{
    match what {
        DeclKind::Epi(kind, scale, field) => particle_range(*kind, *scale, field, first, others),
        DeclKind::Epj(kind, scale, field) => source_range(*kind, *scale, field, first, others),
        DeclKind::Param(scale, mantissa) => Ok(Range::Num(only(*mantissa), *scale)),
        DeclKind::Force(_, _, _) => Err(Bad),
    }
}

fn particle_range(
    kind: Kind,
    scale: u32,
    field: &Name,
    first: &Body,
    others: &[Body],
) -> Result<Range, Bad>
    ensures { result ≡ rules.variable_range kind scale rules.particle_has
        (rules.particle_interval first.now others.now) (rules.field_named field.now) }
{
    match field_named(field) {
        Some(of) if particle_has(of) && fits(kind, scale, of) => {
            range_of_kind(kind, scale, particle_interval(of, first, others))
        }
        _ => Err(Bad),
    }
}

fn source_range(
    kind: Kind,
    scale: u32,
    field: &Name,
    first: &Body,
    others: &[Body],
) -> Result<Range, Bad>
    ensures { result ≡ rules.variable_range kind scale rules.source_has
        (rules.source_interval first.now others.now) (rules.field_named field.now) }
{
    match field_named(field) {
        Some(of) if source_has(of) && fits(kind, scale, of) => {
            range_of_kind(kind, scale, source_interval(of, first, others))
        }
        _ => Err(Bad),
    }
}

fn range_of_kind(kind: Kind, scale: u32, a: Result<Interval, Bad>) -> Result<Range, Bad>
    ensures { result ≡ rules.range_of_kind kind scale a }
{
    match kind {
        Kind::Num => num(scale, a),
        Kind::Vec3 => vec_of(scale, a, a, a),
    }
}

fn particle_interval(of: Field, first: &Body, others: &[Body]) -> Result<Interval, Bad>
    ensures { result ≡ narrow (rules.particle_interval first.now others.now of) }
{
    match of {
        Field::Pos => coordinates(),
        Field::Vel => velocities(),
        Field::Mass
        | Field::C0
        | Field::C1
        | Field::C2
        | Field::C3
        | Field::C4
        | Field::C5
        | Field::C6
        | Field::C7
        | Field::Count => kept(of_particles(of, first, others)),
    }
}

fn source_interval(of: Field, first: &Body, others: &[Body]) -> Result<Interval, Bad>
    ensures { result ≡ narrow (rules.source_interval first.now others.now of) }
{
    match of {
        Field::Pos => coordinates(),
        Field::Vel => velocities(),
        Field::Count => counts(others),
        Field::Mass
        | Field::C0
        | Field::C1
        | Field::C2
        | Field::C3
        | Field::C4
        | Field::C5
        | Field::C6
        | Field::C7 => sum_interval(of_particles(of, first, others), others),
    }
}

fn coordinates() -> Result<Interval, Bad>
    ensures { result ≡ narrow rules.coordinates }
{
    Ok(Interval {
        least: 0,
        greatest: MOST_COORDINATE,
    })
}

fn velocities() -> Result<Interval, Bad>
    ensures { result ≡ narrow rules.velocities }
{
    Ok(Interval {
        least: -MOST_VELOCITY,
        greatest: MOST_VELOCITY,
    })
}

// From the least to the greatest of the particles.
fn of_particles(of: Field, first: &Body, others: &[Body]) -> Interval
    ensures { result ≡ rules.of_particles first.now others.now of }
{
    let mut all = point(of, first);
    for body in others {
        all = wider(all, point(of, body));
    }
    all
}

// The number of one particle.
fn point(of: Field, body: &Body) -> Interval
    ensures { result ≡ (record {
      least = rules.number_of_particle of body.now;
      greatest = rules.number_of_particle of body.now;
    }) }
{
    only(of.of_body(body)[0])
}

// The sum of some of these numbers, as few as one and as many as all.
fn sum_interval(a: Interval, others: &[Body]) -> Result<Interval, Bad>
    ensures { result ≡ narrow (rules.sum_interval_of (length others.now + 1) a) }
{
    with_ends(least_sum(a.least, others), greatest_sum(a.greatest, others))
}

fn least_sum(least: i64, others: &[Body]) -> Result<i64, NumFault>
    ensures { result ≡ exact (int_min least (pos (length others.now + 1) *ℤ least)) }
{
    if 0 <= least {
        Ok(least)
    } else {
        times_count(others, least)
    }
}

fn greatest_sum(greatest: i64, others: &[Body]) -> Result<i64, NumFault>
    ensures { result ≡ exact (int_max greatest (pos (length others.now + 1) *ℤ greatest)) }
{
    if greatest <= 0 {
        Ok(greatest)
    } else {
        times_count(others, greatest)
    }
}

// As often as there are particles.
fn times_count(others: &[Body], number: i64) -> Result<i64, NumFault>
    ensures { result ≡ exact (pos (length others.now + 1) *ℤ number) }
{
    checked_mul(others.len() as i64 + 1, number)
}

// From one particle to all.
fn counts(others: &[Body]) -> Result<Interval, Bad>
    ensures { result ≡ narrow (record { least = pos 1; greatest = pos (length others.now + 1) }) }
{
    with_ends(Ok(1), count(others))
}

fn count(others: &[Body]) -> Result<i64, NumFault>
    ensures { result ≡ exact (pos (length others.now + 1)) }
{
    times_count(others, 1)
}
