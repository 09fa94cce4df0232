ghost use Rattle.std.specs.Prelude.{◌≡◌, ◌+◌, ◌*◌, ◌-◌, ◌^◌, ◌<◌, ◌≤◌, IfOk, IsPermutation, length, map};
ghost use Rattle.std.specs.List.Sorted.{IsNonDecreasing};
ghost use Rattle.pf_geom.specs.Key.{morton_key};
ghost use Rattle.pf_model.specs.Particles.{AreBodies};
ghost use Rattle.pf_model.specs.Sums.{moment_of};
ghost use Rattle.pf_model.specs.Group.{particles_in};
ghost use Rattle.morton_tree.specs.Tree.{IsInKeyOrder, IsOctree, IsUnmoved};
ghost use Rattle.morton_tree.specs.Spans.{at_span, span_of, child_of, child_spans, FollowOneAnother, IsWithin, count_below};

use crate::sorting::in_order;
use crate::span::Span;
use moments::{Prefix, prefix_of};
use pf_geom::{Cell, DEEPEST, shifted_keys_fit};
use pf_model::{Body, Moment};
use pf_num::OutOfMemory;
use std::alloc::Global;
use std::marker::Model;
use std::thread::Threads;

/// The octree of one rank without pointers: its bodies in the order of the Morton curve, so that each
/// cell is a span of the list (Gargantini 1982; Warren and Salmon 1993). It keeps the keys of the build, by
/// which spans are found also after the bodies have moved.
#[derive(Drop)]
pub struct Tree {
    keys: Vec<u128>,
    // No code reads these after the build: clauses tell of them what cells hold.
    built: Vec<Body>,
    bodies: Vec<Body>,
    sums: Prefix,
}

impl Model for Tree {
    ghost use Rattle.morton_tree.specs.Tree.{Octree, IsTreeOf};

    ghost Value = { Octree };

    ghost view = { λ t. record { built = t.built.items; bodies = t.bodies.items } };

    ghost invariant = { λ t. IsTreeOf (record { built = t.built.items; bodies = t.bodies.items }) t.keys.items t.sums };
}

impl Tree {
    /// The tree of at most `MOST_PARTICLES` bodies of distinct ids, which are put into the order of (key, id).
    pub fn build(
        rt: &(impl Threads + Sync),
        alloc: Global,
        mut bodies: Vec<Body>,
    ) -> Result<Tree, OutOfMemory>
        requires { AreBodies bodies.items }
        ensures same_bodies { IfOk result (λ tree. IsPermutation bodies.items tree.built) }
        ensures in_order { IfOk result (λ tree. IsInKeyOrder tree.built) }
        ensures unmoved { IfOk result (λ tree. IsUnmoved tree) }
    {
        let (keys, built) = in_order(rt, alloc, &bodies)?;
        let sums = prefix_of(alloc, &built)?;
        bodies.copy_from_slice(&built);
        Ok(Tree {
            keys,
            built,
            bodies,
            sums,
        })
    }

    /// The bodies become `now`, which has the same ids in the same order. Cells keep the spans of the build,
    /// and moments are those of the present bodies.
    pub fn moved(&mut self, now: &[Body])
        requires { map (λ j. j.id) now.now ≡ map (λ j. j.id) self.old.bodies }
        ensures value { self.new ≡ record { built = self.old.built; bodies = now.now } }
    {
        self.bodies.copy_from_slice(now);
        self.sums.refill(now);
    }

    /// The bodies, in the order of (key, id) that they had at the build.
    pub fn bodies(&self) -> &[Body]
        ensures value { result.now ≡ self.now.bodies }
        ensures tree { IsOctree self.now }
    {
        &self.bodies
    }

    /// The Morton keys that the bodies had at the build, in ascending order.
    pub fn keys(&self) -> &[u128]
        ensures value { result.now ≡ map (λ j. morton_key j.at) self.now.built }
        ensures tree { IsOctree self.now }
    {
        &self.keys
    }

    /// Where the bodies that a cell had at the build stand in the list of bodies. The span of a cell
    /// without bodies stands after those of the lower cells of its level.
    pub fn node(&self, c: Cell) -> Span
        ensures value { result ≡ span_of c self.now.built }
        ensures inside { result.first + result.len ≤ length self.now.bodies }
        ensures members { at_span result self.now.built ≡ particles_in c self.now.built }
    {
        self.node_in(c, self.whole())
    }

    // The span of a cell, which lies within this one.
    pub(crate) fn node_in(&self, c: Cell, above: Span) -> Span
        requires within { IsWithin (span_of c self.now.built) above }
        requires inside { above.first + above.len ≤ length self.now.built }
        ensures { result ≡ span_of c self.now.built }
    {
        let keys = self.keys();
        let (least, past) = key_range(c);
        let end = (above.first + above.len) as usize;
        let first = first_from(keys, least, above.first as usize, end);
        let end = first_from(keys, past, first, end);
        Span::between(first, end)
    }

    // The span of all bodies.
    pub(crate) fn whole(&self) -> Span
        ensures value { result ≡ record { first = 0; len = length self.now.built } }
        ensures tree { IsOctree self.now }
    {
        Span::between(0, self.keys().len())
    }

    /// The spans of the eight children of a cell, in the order of their keys. The level isn't the deepest.
    pub fn children(&self, c: Cell) -> [Span; 8]
        requires { c.level < DEEPEST }
        ensures value { result ≡ child_spans c self.now.built }
        ensures in_turn { let whole = span_of c self.now.built in
            FollowOneAnother whole.first (whole.first + whole.len) result }
    {
        self.children_in(c, self.node(c))
    }

    /// The same, where the span of the cell is known: only its bodies are searched.
    pub fn children_in(&self, c: Cell, whole: Span) -> [Span; 8]
        requires level { c.level < DEEPEST }
        requires own { whole ≡ span_of c self.now.built }
        ensures value { result ≡ child_spans c self.now.built }
        ensures in_turn { FollowOneAnother whole.first (whole.first + whole.len) result }
    {
        [
            self.child_in(c, 0, whole),
            self.child_in(c, 1, whole),
            self.child_in(c, 2, whole),
            self.child_in(c, 3, whole),
            self.child_in(c, 4, whole),
            self.child_in(c, 5, whole),
            self.child_in(c, 6, whole),
            self.child_in(c, 7, whole),
        ]
    }

    // The span of one child of a cell, within that of the cell.
    fn child_in(&self, c: Cell, k: u8, whole: Span) -> Span
        requires level { c.level < DEEPEST }
        requires child { k < 8 }
        requires own { whole ≡ span_of c self.now.built }
        ensures { result ≡ span_of (child_of c k) self.now.built }
    {
        let child = Cell {
            level: c.level + 1,
            key: 8 * c.key + u128::from(k),
        };
        self.node_in(child, whole)
    }

    /// The moment of the bodies of a span, as they are now. It lies inside the list of bodies.
    pub fn moment(&self, s: Span) -> Moment
        requires { s.first + s.len ≤ length self.now.bodies }
        ensures { result ≡ moment_of (at_span s self.now.bodies) }
    {
        self.sums.range(s.first, s.len)
    }
}

// The least key of a cell's points, and the one after the greatest.
fn key_range(c: Cell) -> (u128, u128)
    ensures least { result.0 ≡ c.key * 8 ^ (DEEPEST - c.level) }
    ensures past { result.1 ≡ (c.key + 1) * 8 ^ (DEEPEST - c.level) }
{
    shifted_keys_fit();
    let shift = 3 * (DEEPEST - c.level);
    (c.key << shift, (c.key + 1) << shift)
}

// The place of the first of ascending keys that isn't below this one, which is at least `from` and at most `to`.
fn first_from(keys: &[u128], key: u128, from: usize, to: usize) -> usize
    requires ascending { IsNonDecreasing keys.now }
    requires least { from ≤ count_below key keys.now }
    requires most { count_below key keys.now ≤ to }
    requires inside { to ≤ length keys.now }
    ensures { result ≡ count_below key keys.now }
{
    from + keys[from..to].partition_point(|k| *k < key)
}
