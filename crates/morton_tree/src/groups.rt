ghost use Rattle.std.specs.Prelude.{◌≡◌, ◌+◌, ◌≤◌, IfOk, All, Contains, length, map};
ghost use Rattle.pf_model.specs.Group.{particles_in, group_cell};
ghost use Rattle.pf_geom.specs.Octant.{ancestor_at};
ghost use Rattle.morton_tree.specs.Tree.{IsUnmoved};
ghost use Rattle.morton_tree.specs.Spans.{at_span, span_of, FollowOneAnother};
ghost use Rattle.morton_tree.specs.Groups.{group_in, groups_of, IsGroup};

use crate::group::Group;
use crate::span::Span;
use crate::tree::Tree;
use model_laws::{group_levels_are_least, positions_share_their_group};
use pf_geom::{Cell, DEEPEST, Point, cell_of, cells_of_a_position_nest, levels_take_three_bits};
use pf_model::{Body, MOST_GROUP, box_of};
use pf_num::OutOfMemory;
use std::alloc::Global;

impl Tree {
    /// The groups of the bodies, which haven't moved since the build, by the key of their cell's corner. A
    /// group has the bodies of the largest cell round them that has no more of them than `limit`, or else
    /// those of a cell of the deepest level, which is one place and may have more. The limit is from 1 to
    /// `MOST_GROUP`.
    pub fn groups(&self, alloc: Global, limit: u32) -> Result<Vec<Group>, OutOfMemory>
        requires unmoved { IsUnmoved self.now }
        requires some { 1 ≤ limit }
        requires most { limit ≤ MOST_GROUP }
        ensures value { IfOk result (λ groups. groups.items ≡ groups_of limit self.now.built) }
        ensures in_turn { IfOk result (λ groups.
            FollowOneAnother 0 (length self.now.built) (map (λ g. g.span) groups.items)) }
        ensures each { IfOk result (λ groups. All (IsGroup limit self.now.built) groups.items) }
        ensures few { IfOk result (λ groups. length groups.items ≤ length self.now.built) }
    {
        positions_share_their_group();
        let bodies = self.bodies();
        let mut groups = Vec::new(alloc);
        let mut place = 0;
        while place < bodies.len() {
            let group = self.group_at(limit, &bodies[place]);
            place += group.span.len as usize;
            groups.push(group)?;
        }
        Ok(groups)
    }

    // The group of one of the bodies.
    fn group_at(&self, limit: u32, body: &Body) -> Group
        requires unmoved { IsUnmoved self.now }
        requires own { Contains self.now.built body.now }
        ensures { result ≡ group_in self.now.built (group_cell limit self.now.built body.now.at) }
    {
        let (cell, span) = self.group_cell(limit, body.at);
        let first = span.first as usize;
        let members = &self.bodies()[first..first + span.len as usize];
        Group {
            cell,
            span,
            around: box_of(members),
        }
    }

    // The cell of the group of a point, and the span of its bodies. Each level is tried in turn, from the cube
    // down, and a cell is searched for among the bodies of the one above it.
    fn group_cell(&self, limit: u32, p: Point) -> (Cell, Span)
        ensures cell { result.0 ≡ group_cell limit self.now.built p }
        ensures span { result.1 ≡ span_of result.0 self.now.built }
        ensures inside { result.1.first + result.1.len ≤ length self.now.bodies }
        ensures members { at_span result.1 self.now.built ≡ particles_in result.0 self.now.built }
    {
        group_levels_are_least();
        cells_of_a_position_nest();
        let deepest = cell_of(p, DEEPEST);
        let mut span = self.whole();
        for level in 0..DEEPEST {
            let cell = ancestor(deepest, level);
            span = self.node_in(cell, span);
            if span.len <= limit {
                return (cell, span);
            }
        }
        (deepest, self.node_in(deepest, span))
    }
}

// The cell of a level that a cell lies in.
fn ancestor(c: Cell, level: u32) -> Cell
    requires { level ≤ c.level }
    ensures { result ≡ ancestor_at c level }
{
    levels_take_three_bits();
    Cell {
        level,
        key: c.key >> (3 * (c.level - level)),
    }
}
