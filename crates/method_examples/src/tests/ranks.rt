ghost use Rattle.std.specs.Prelude.{◌≡◌, ◌≢◌, ◌^◌, ◌<◌, [], ◌∷◌, IfOk};
ghost use Rattle.pf_model.specs.Particles.{AreBodies};
ghost use Rattle.pf_model.specs.Division.{rank_count};

use exchange::{Parcel, RankState, each_rank_has_its_own, leave, settle};
use let_inbox::Named;
use multisection::{Domains, make_domains};
use pf_geom::Point;
use pf_model::{Body, Grid};
use pf_num::OutOfMemory;
use std::alloc::Global;
use std::test::Fail;

// A body at rest on the x axis.
fn body(id: u32, x: u32) -> Body
    requires { x < 2 ^ 30 }
    ensures { result.id ≡ id }
{
    Body {
        id,
        at: Point { x, y: 0, z: 0 },
        vel: [0; 3],
        mass: 1,
        attr: [0; 8],
    }
}

// A rank with one body.
fn lone(alloc: Global, rank: u32, body: Body) -> Result<RankState, OutOfMemory>
    ensures { IfOk result (λ s. s ≡ record { rank = rank; bodies = body ∷ [] }) }
{
    let bodies = Vec::from_array(alloc, [body])?;
    Ok(RankState { rank, bodies })
}

// Two bodies, and the domains that they make on two ranks.
fn divided(alloc: Global, bodies: &[Body; 2]) -> Result<Domains, OutOfMemory>
    requires { AreBodies bodies.now }
    ensures { IfOk result (λ d. rank_count d.cuts.grid ≡ 2) }
{
    let grid = Grid {
        nx: 2,
        ny: 1,
        nz: 1,
    };
    let d = make_domains(alloc, bodies, grid)?;
    Ok(d)
}

// Two bodies of different ids.
fn two(first: Body, second: Body) -> [Body; 2]
    requires { first.id ≢ second.id }
    ensures value { result ≡ first ∷ second ∷ [] }
    ensures bodies { AreBodies result }
{
    [first, second]
}

// What two ranks have after both left and settled, and the parcel of each: its source, its destination, and
// how many bodies it has.
#[derive(Drop)]
struct BothRanks {
    first: RankState,
    second: RankState,
    first_parcel: [u32; 3],
    second_parcel: [u32; 3],
}

// The names and the number of bodies of a lone parcel.
fn lone_parcel(parcels: &[Parcel]) -> [u32; 3] {
    match parcels {
        [parcel] if parcel.bodies.len() == 1 => [parcel.src(), parcel.dst(), 1],
        _ => [9, 9, 9],
    }
}

// Two ranks with one body each leave and settle.
fn exchanged(
    alloc: Global,
    d: &Domains,
    first: Body,
    second: Body,
) -> Result<BothRanks, OutOfMemory>
    requires two { rank_count d.now.cuts.grid ≡ 2 }
    requires bodies { AreBodies (first ∷ second ∷ []) }
{
    each_rank_has_its_own();
    let mut first = lone(alloc, 0, first)?;
    let mut second = lone(alloc, 1, second)?;
    let from_first = leave(alloc, &mut first, d)?;
    let from_second = leave(alloc, &mut second, d)?;
    let first_parcel = lone_parcel(&from_first);
    let second_parcel = lone_parcel(&from_second);
    let first = settle(alloc, first, from_second)?;
    let second = settle(alloc, second, from_first)?;
    Ok(BothRanks {
        first,
        second,
        first_parcel,
        second_parcel,
    })
}

// The id of a rank's lone body.
fn lone_id(s: &RankState) -> u32 {
    match s.bodies.as_slice() {
        [body] => body.id,
        _ => 0,
    }
}

// What two ranks have whose bodies, one each, lie in the other's domain.
fn two_exchanged(alloc: Global) -> Result<BothRanks, OutOfMemory> {
    let bodies = two(body(1, 22), body(2, 15));
    let d = divided(alloc, &bodies)?;
    exchanged(alloc, &d, bodies[0], bodies[1])
}

#[test]
fn bodies_change_ranks(rt: HostRuntime) -> Result<(), Fail> {
    let after = two_exchanged(rt.alloc())?;
    assert!(rt; after.first_parcel == [0, 1, 1] && after.second_parcel == [1, 0, 1]);
    assert!(rt; lone_id(&after.first) == 2 && lone_id(&after.second) == 1);
    Ok(())
}

// A parcel for rank 1 with one body.
fn parcel(alloc: Global, src: u32, body: Body) -> Result<Parcel, OutOfMemory>
    ensures { IfOk result (λ p. p.bodies ≡ body ∷ []) }
{
    let bodies = Vec::from_array(alloc, [body])?;
    Ok(Parcel {
        src,
        dst: 1,
        bodies,
    })
}

// Three ranks' bodies at rank 1, where those of rank 2 came first.
fn joined(
    alloc: Global,
    own: Body,
    from_two: Body,
    from_none: Body,
) -> Result<RankState, OutOfMemory>
    requires own_and_two { own.id ≢ from_two.id }
    requires own_and_none { own.id ≢ from_none.id }
    requires two_and_none { from_two.id ≢ from_none.id }
{
    let s = lone(alloc, 1, own)?;
    let mut parcels = Vec::new(alloc);
    parcels.push(parcel(alloc, 2, from_two)?)?;
    parcels.push(parcel(alloc, 0, from_none)?)?;
    settle(alloc, s, parcels)
}

// Whether a rank has three bodies of these ids, in this order.
fn has_ids(s: &RankState, first: u32, second: u32, third: u32) -> bool {
    match s.bodies.as_slice() {
        [a, b, c] => a.id == first && b.id == second && c.id == third,
        _ => false,
    }
}

#[test]
fn what_comes_is_joined_by_id(rt: HostRuntime) -> Result<(), Fail> {
    let s = joined(rt.alloc(), body(5, 5), body(9, 5), body(3, 5))?;
    assert!(rt; s.rank == 1 && has_ids(&s, 3, 5, 9));
    Ok(())
}
