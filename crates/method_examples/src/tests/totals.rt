ghost use Rattle.std.specs.Prelude.{◌^◌, ◌<◌, ◌≤◌};

use super::trees::is_on_axis;
use moments::{centre, item, merge, of_one, prefix_of, prefix_over};
use pf_geom::Point;
use pf_model::{Body, Moment};
use pf_num::OutOfMemory;
use std::alloc::Global;
use std::test::Fail;

// A particle at rest on the x axis, whose first and last attributes are given.
fn body(id: u32, x: u32, mass: u32, first: i8, last: i8) -> Body
    requires in_cube { x < 2 ^ 30 }
    requires positive { 1 ≤ mass }
    requires light { mass < 2 ^ 31 }
{
    Body {
        id,
        at: Point { x, y: 0, z: 0 },
        vel: [0; 3],
        mass,
        attr: [i64::from(first), 0, 0, 0, 0, 0, 0, i64::from(last)],
    }
}

// Two particles close together, of which the second is heavier.
fn lighter() -> Body {
    body(2, 1048576, 1, 5, -2)
}

fn heavier() -> Body {
    body(3, 1048581, 3, -9, 7)
}

// Their moment, if counts allow it.
fn both(m: Moment, n: Moment) -> Option<Moment> {
    if m.count > 2 || n.count > 2 {
        return None;
    }
    Some(merge(m, n))
}

fn of_pair() -> Option<Moment> {
    both(of_one(&lighter()), of_one(&heavier()))
}

// Whether a moment is theirs.
fn is_of_pair(m: &Moment) -> bool {
    m.count == 2
        && m.mass == 4
        && m.weighted == [4194319, 0, 0]
        && m.attr == [-4, 0, 0, 0, 0, 0, 0, 5]
}

// Whether the item of a moment, and its centre, are theirs.
fn has_item_of_pair(m: &Moment) -> bool {
    if m.count == 0 {
        return false;
    }
    let seen = item(m);
    is_on_axis(centre(m), 1048579)
        && is_on_axis(seen.at, 1048579)
        && seen.mass == 4
        && seen.attr == [-4, 0, 0, 0, 0, 0, 0, 5]
        && seen.count == 2
}

#[test]
fn a_heavier_particle_draws_the_centre(rt: HostRuntime) -> Result<(), Fail> {
    let pair = of_pair().ok_or("too many particles")?;
    assert!(rt; is_of_pair(&pair));
    assert!(rt; has_item_of_pair(&pair));
    Ok(())
}

// Whether the sums over three particles, of which the last two are the pair, tell the moment of each range.
fn has_ranges(alloc: Global) -> Result<bool, OutOfMemory> {
    let prefix = prefix_of(alloc, &[body(1, 0, 1, 1, 0), lighter(), heavier()])?;
    Ok(
        is_of_pair(&prefix.range(1, 2))
            && prefix.range(1, 1).weighted == [1048576, 0, 0]
            && prefix.range(0, 3).attr == [-3, 0, 0, 0, 0, 0, 0, 5]
            && prefix.range(3, 0) == Moment::none(),
    )
}

#[test]
fn a_range_leaves_out_what_is_before_it_and_after_it(rt: HostRuntime) -> Result<(), Fail> {
    assert!(rt; has_ranges(rt.alloc())?);
    Ok(())
}

// Whether the sums over two moments, and then over the same in the other order, tell what ranges come to.
fn has_sums(alloc: Global, one: Moment, pair: Moment) -> Result<bool, OutOfMemory>
    requires one { one.count ≤ 1 }
    requires pair { pair.count ≤ 2 }
{
    let mut prefix = prefix_over(alloc, &[one, pair])?;
    let before = prefix.range(1, 1) == pair && prefix.range(0, 2).weighted == [4194325, 0, 0];
    prefix.refill_over(&[pair, one]);
    Ok(before && prefix.range(0, 1) == pair && prefix.range(0, 2).mass == 6)
}

#[test]
fn sums_go_over_moments_too(rt: HostRuntime) -> Result<(), Fail> {
    let one = of_one(&body(1, 3, 2, 1, 0));
    let pair = of_pair().ok_or("too many particles")?;
    assert!(rt; one.count <= 1 && pair.count <= 2);
    assert!(rt; has_sums(rt.alloc(), one, pair)?);
    Ok(())
}
