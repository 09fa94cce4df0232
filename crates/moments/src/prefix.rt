ghost use Rattle.std.specs.Prelude.{◌≡◌, ◌+◌, ◌≤◌, ◌<◌, List, [], ◌∷◌, length, take, drop, All, IfOk};
ghost use Rattle.pf_model.specs.Particle.{Particle};
ghost use Rattle.pf_model.specs.Totals.{Totals, IsTotals};
ghost use Rattle.pf_model.specs.Sums.{moment_of, all_together};
ghost use Rattle.moments.specs.Prefix.{prefix_moments, HasLimitedMoment, prefix_sums, particle_count};

use model_laws::{
    joined_moments_keep_their_limits, moments_add_up, moments_cancel, moments_join_in_any_order,
    moments_keep_their_limits,
};
use pf_model::{Body, MOST_PARTICLES, Moment};
use pf_num::OutOfMemory;
use std::alloc::Global;
use std::marker::Model;

/// The moments of the first bodies of a list, for each count of them from none to all, or the sums of the first
/// of some moments. That of any range of the list is the difference of two of them.
#[derive(Drop)]
pub struct Prefix {
    moments: Vec<Moment>,
}

impl Model for Prefix {
    ghost use Rattle.std.specs.Prelude.{List};
    ghost use Rattle.pf_model.specs.Totals.{Totals};
    ghost use Rattle.moments.specs.Prefix.{IsPrefix};

    ghost Value = { List Totals };

    ghost view = { λ p. p.moments.items };

    ghost invariant = { λ p. IsPrefix p.moments.items };
}

/// The prefix of a list of at most `MOST_PARTICLES` bodies.
pub fn prefix_of(alloc: Global, bodies: &[Body]) -> Result<Prefix, OutOfMemory>
    requires { length bodies.now ≤ MOST_PARTICLES }
    ensures { IfOk result (λ p. p ≡ prefix_moments bodies.now) }
{
    moments_add_up();
    let mut moments = vec![in alloc; Moment::none(); bodies.len() + 1]?;
    fill(&mut moments, bodies);
    Ok(Prefix { moments })
}

/// The prefix of a list of at most `MOST_PARTICLES` moments, of no more particles together.
pub fn prefix_over(alloc: Global, moments: &[Moment]) -> Result<Prefix, OutOfMemory>
    requires few { length moments.now ≤ MOST_PARTICLES }
    requires few_particles { particle_count moments.now ≤ MOST_PARTICLES }
    ensures { IfOk result (λ p. p ≡ prefix_sums moments.now) }
{
    let mut sums = vec![in alloc; Moment::none(); moments.len() + 1]?;
    fill_over(&mut sums, moments);
    Ok(Prefix { moments: sums })
}

impl Prefix {
    /// The moment of `len` bodies from place `first` on, or the sum of so many moments, all of them in the list.
    pub fn range(&self, first: u32, len: u32) -> Moment
        requires { first + len < length self.now }
        ensures bodies { (js : List Particle) → self.now ≡ prefix_moments js → result ≡ moment_of (take len (drop first js)) }
        ensures moments { (ms : List Totals) → self.now ≡ prefix_sums ms → All IsTotals ms
            → result ≡ all_together (take len (drop first ms)) }
    {
        moments_add_up();
        moments_cancel();
        moments_join_in_any_order();
        moments_keep_their_limits();
        joined_moments_keep_their_limits();
        let before = self.moments[first as usize];
        let through = self.moments[(first + len) as usize];
        through.without(before)
    }

    /// The moments of other bodies in place of those, as many as there were.
    pub fn refill(&mut self, bodies: &[Body])
        requires { length self.old ≡ length bodies.now + 1 }
        ensures { self.new ≡ prefix_moments bodies.now }
    {
        moments_add_up();
        fill(&mut self.moments, bodies);
    }

    /// The sums of other moments in place of those, of as many, which are of at most `MOST_PARTICLES` together.
    pub fn refill_over(&mut self, moments: &[Moment])
        requires room { length self.old ≡ length moments.now + 1 }
        requires few_particles { particle_count moments.now ≤ MOST_PARTICLES }
        ensures { self.new ≡ prefix_sums moments.now }
    {
        fill_over(&mut self.moments, moments);
    }
}

// Writes the moments of the first bodies, for each count of them from none to all.
fn fill(moments: &mut [Moment], bodies: &[Body])
    requires few { length bodies.now ≤ MOST_PARTICLES }
    requires room { length moments.old ≡ length bodies.now + 1 }
    ensures value { moments.new ≡ prefix_moments bodies.now }
    ensures limits { All HasLimitedMoment bodies.now }
{
    moments_add_up();
    let mut so_far = Moment::none();
    moments[0] = so_far;
    for place in 0..bodies.len() {
        so_far = so_far.merge(limited_moment(&bodies[place]));
        moments[place + 1] = so_far;
    }
}

// Writes the sums of the first moments, for each count of them from none to all.
fn fill_over(sums: &mut [Moment], moments: &[Moment])
    requires room { length sums.old ≡ length moments.now + 1 }
    requires few_particles { particle_count moments.now ≤ MOST_PARTICLES }
    ensures value { sums.new ≡ prefix_sums moments.now }
    ensures limits { All IsTotals moments.now }
{
    moments_join_in_any_order();
    let mut so_far = Moment::none();
    sums[0] = so_far;
    for place in 0..moments.len() {
        so_far = so_far.merge(limited(&moments[place]));
        sums[place + 1] = so_far;
    }
}

// A moment, with the limits that it keeps.
fn limited(moment: &Moment) -> Moment
    ensures value { result ≡ moment.now }
    ensures limits { IsTotals result }
{
    let _ = &moment.count;
    *moment
}

// The moment of a body, with the limits that it keeps.
fn limited_moment(body: &Body) -> Moment
    ensures value { result ≡ moment_of (body.now ∷ []) }
    ensures limits { IsTotals result }
{
    let moment = Moment::of_one(body);
    let _ = &moment.count;
    moment
}
