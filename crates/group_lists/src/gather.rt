ghost use Rattle.std.specs.Prelude.{◌≡◌, ◌+◌, ◌*◌, ◌<◌, ◌≤◌, IfOk, OnOk, All, Contains, IsPermutation, [], length, map};
ghost use Rattle.std.specs.Prelude.{slice_get, Some, sum_by};
ghost use Rattle.std.specs.List.{AllZip};
ghost use Rattle.pf_model.specs.Division.{rank_count};
ghost use Rattle.pf_model.specs.Domains.{particles_of};
ghost use Rattle.pf_model.specs.Interaction.{list_of};
ghost use Rattle.pf_model.specs.EssentialTree.{essential_tree};
ghost use Rattle.morton_tree.specs.Tree.{IsUnmoved};
ghost use Rattle.morton_tree.specs.Spans.{at_span};
ghost use Rattle.group_lists.specs.Gathering.{own_gathering, with_source, IsNewSource, IsGroupOf, IsWhole};
ghost use Rattle.group_lists.specs.Gathering.{partial_list, gathered_count, source_count};
ghost use Rattle.group_lists.specs.Listing.{IsSource};
ghost use Rattle.group_lists.specs.Indexed.{IsKeptOf};

use crate::absorbing::absorb_tree;
use crate::item_index::ItemIndex;
use crate::kept_source::KeptSource;
use crate::keyed_tree::KeyedTree;
use crate::laws::{groups_are_served, items_lie_by_place};
use crate::listed::Listed;
use crate::lists::Lists;
use model_laws::{
    all_ranks_have_all, distinct_ids_ignore_order, lists_are_short, lists_hold_their_entries,
    lists_ignore_order, one_rank_has_its_own, some_have_distinct_ids,
};
use morton_tree::{Group, Tree};
use pf_geom::DEEPEST;
use pf_model::{Body, Entry, EssTree, MOST_PARTICLES, Steps, Terms, Theta};
use pf_num::OutOfMemory;
use std::alloc::Global;
use std::marker::Model;
use std::sync::ledger::Ledger;
use tree_lists::list_over;

/// The most entries that the lists of a rank's groups have together, and the most that are kept.
pub const MOST_ENTRIES: u64 = 1 << 24;

/// The interaction lists of the groups of one rank, over its own particles and those of the ranks absorbed.
#[derive(Drop)]
pub struct Gather<T: Terms> {
    rank: u32,
    theta: Theta,
    bodies: Vec<Body>,
    listed: Vec<Listed>,
    count: u64,
    trees: Vec<KeyedTree<T>>,
}

impl<T: Terms> Model for Gather<T> {
    ghost use Rattle.std.specs.Prelude.{map};
    ghost use Rattle.group_lists.specs.Gathering.{Gathering, gathering_of, IsGathered, CanAbsorb};

    ghost Value = { Gathering };

    ghost view = { λ g. gathering_of g.rank g.bodies.items (map (λ l. l.group) g.listed.items) g.trees.items };

    ghost invariant = { λ g. IsGathered T.theta T.grid T.particles
        (gathering_of g.rank g.bodies.items (map (λ l. l.group) g.listed.items) g.trees.items)
        (map (λ l. l.entries.items) g.listed.items) g.count
        × CanAbsorb T.theta T.grid T.particles
        (gathering_of g.rank g.bodies.items (map (λ l. l.group) g.listed.items) g.trees.items)
        g.theta g.trees.items };
}

impl<T: Terms> Gather<T> {
    /// Begins the lists of groups of a rank's tree, which hasn't moved, with its own bodies. There are at
    /// most `MOST_PARTICLES` groups, each with a span of the tree that isn't empty, and the least box round its
    /// bodies. For each group no more cells are tested than `DEEPEST + 1` times the entries of its list over the own
    /// bodies, and none where the opening angle is 0.
    pub fn open<L: Ledger>(
        alloc: Global,
        rank: u32,
        ranks: u32,
        tree: &Tree,
        groups: &[Group],
        t: Theta,
        steps: &mut Steps<L>,
    ) -> Result<Gather<T>, OutOfMemory>
        requires unmoved { IsUnmoved tree.now }
        requires few { length groups.now ≤ MOST_PARTICLES }
        requires of_tree { All (IsGroupOf tree.now.built) groups.now }
        requires rank { rank < ranks }
        requires ranks { rank_count T.grid ≡ ranks }
        requires own { IsPermutation tree.now.built (particles_of T.grid T.particles rank) }
        requires theta { t ≡ T.theta }
        ensures value { IfOk result (λ gather. gather ≡ own_gathering rank tree.now.built groups.now) }
        ensures tests { OnOk result (steps.new ≤ steps.old
            + (DEEPEST + 1) * source_count T.theta T.grid T.particles groups.now rank) }
        ensures none { t.a ≡ 0 → steps.new ≡ steps.old }
    {
        lists_ignore_order();
        one_rank_has_its_own();
        let own = tree.bodies();
        let (listed, count) = list_groups(alloc, tree, groups, t, steps)?;
        let bodies = own.to_vec(alloc)?;
        Ok(Gather {
            rank,
            theta: t,
            bodies,
            listed,
            count,
            trees: Vec::new(alloc),
        })
    }

    /// Adds what a source's essential tree has for each list. The tree was sent to this rank by one that wasn't
    /// absorbed yet. After a refusal the gather is gone. For each group no more cells are tested than `DEEPEST + 1`
    /// times the entries of its list limited to this source.
    pub fn absorb<L: Ledger>(
        self,
        alloc: Global,
        tree: EssTree<T>,
        steps: &mut Steps<L>,
    ) -> Result<Gather<T>, OutOfMemory>
        requires here { tree.dst ≡ self.rank }
        requires new { IsNewSource T.grid self tree.src }
        ensures value { IfOk result (λ gather. gather ≡ with_source self tree.src) }
        ensures tests { OnOk result (steps.new ≤ steps.old
            + (DEEPEST + 1) * source_count T.theta T.grid T.particles self.groups tree.src) }
    {
        let tree = KeyedTree::of(alloc, tree)?;
        let (mut listed, mut trees) = (self.listed, self.trees);
        let count = absorb_tree(
            alloc,
            &mut listed,
            self.count,
            &self.bodies,
            &trees,
            &tree,
            self.theta,
            steps,
        )?;
        trees.push(tree)?;
        Ok(Gather {
            rank: self.rank,
            theta: self.theta,
            bodies: self.bodies,
            listed,
            count,
            trees,
        })
    }

    /// How long the lists are together.
    pub fn count(&self) -> u64
        ensures { result ≡ gathered_count T.theta T.grid T.particles self.now }
    {
        self.count
    }

    /// The list of a group over the particles gathered so far, where all lists together have at most
    /// `MOST_ENTRIES`: past that they are counted, and not kept.
    pub fn partial(&self, group: u32) -> &[Entry]
        requires within { group < length self.now.groups }
        requires few { gathered_count T.theta T.grid T.particles self.now ≤ MOST_ENTRIES }
        ensures { slice_get (map (partial_list T.theta T.grid T.particles self.now) self.now.groups) group
            ≡ Some result.now }
    {
        &self.listed[group as usize].entries
    }

    /// The lists, when the particles of all ranks are in and they have at most `MOST_ENTRIES` together.
    pub fn finish(self, alloc: Global) -> Result<Lists, OutOfMemory>
        requires whole { IsWhole T.grid self }
        requires few { gathered_count T.theta T.grid T.particles self ≤ MOST_ENTRIES }
        ensures bodies { IfOk result (λ lists. map (λ l. l.bodies) lists.groups
            ≡ map (λ g. at_span g.span self.own) self.groups) }
        ensures entries { IfOk result (λ lists. map (λ l. l.entries) lists.groups
            ≡ map (λ g. list_of T.theta g.around T.particles) self.groups) }
        ensures spans { IfOk result (λ lists. map (λ l. l.span) lists.groups ≡ map (λ g. g.span) self.groups) }
        ensures built { IfOk result (λ lists. lists.built ≡ self.own) }
        ensures own { IfOk result (λ lists. lists.own ≡ self.own) }
        ensures sources { IfOk result (λ lists. AllZip (λ src s.
            IsSource (essential_tree T.theta T.grid T.particles src self.rank) src s) self.absorbed lists.sources) }
    {
        lists_hold_their_entries();
        lists_are_short();
        all_ranks_have_all();
        some_have_distinct_ids();
        distinct_ids_ignore_order();
        groups_are_served();
        items_lie_by_place();
        let index = ItemIndex::of_bodies(alloc, &self.bodies)?;
        let sources = kept_sources(alloc, self.trees)?;
        let own = self.bodies.to_vec(alloc)?;
        Ok(Lists {
            built: self.bodies,
            own,
            index,
            listed: self.listed,
            sources,
        })
    }
}

// What is kept of the trees that were absorbed.
fn kept_sources<T: Terms>(
    alloc: Global,
    trees: Vec<KeyedTree<T>>,
) -> Result<Vec<KeptSource>, OutOfMemory>
    ensures each { IfOk result (λ sources. AllZip (λ tree s. IsKeptOf T.theta T.grid T.particles tree s)
        trees.items sources.items) }
{
    let mut sources = Vec::with_capacity(alloc, trees.len())?;
    for tree in trees {
        sources.push(tree.kept(alloc)?)?;
    }
    Ok(sources)
}

// The lists of groups over the bodies of a tree, and how long they are together.
fn list_groups<L: Ledger>(
    alloc: Global,
    tree: &Tree,
    groups: &[Group],
    t: Theta,
    steps: &mut Steps<L>,
) -> Result<(Vec<Listed>, u64), OutOfMemory>
    requires unmoved { IsUnmoved tree.now }
    requires few { length groups.now ≤ MOST_PARTICLES }
    ensures each { IfOk result (λ r. map (λ l. l.group) r.0.items ≡ groups.now) }
    ensures count { IfOk result (λ r. r.1
        ≡ sum_by (λ g. length (list_of t g.around tree.now.built)) groups.now) }
    ensures lists { IfOk result (λ r. r.1 ≤ MOST_ENTRIES → map (λ l. l.entries.items) r.0.items
        ≡ map (λ g. list_of t g.around tree.now.built) groups.now) }
    ensures bounded { IfOk result (λ r. sum_by length (map (λ l. l.entries.items) r.0.items) ≤ MOST_ENTRIES) }
    ensures tests { IfOk result (λ r. steps.new ≤ steps.old + (DEEPEST + 1) * r.1) }
    ensures none { t.a ≡ 0 → steps.new ≡ steps.old }
{
    lists_are_short();
    let mut listed = Vec::with_capacity(alloc, groups.len())?;
    let mut runs = Vec::new(alloc);
    let mut count = 0;
    for group in groups {
        let (entries, _) = list_over(alloc, tree, group.around, t, &mut runs, steps)?;
        count += entries.len() as u64;
        listed.push(Listed {
            group: *group,
            entries: while_few(alloc, count, entries),
        })?;
    }
    Ok((listed, count))
}

// The entries, unless there are too many of all lists to keep.
fn while_few(alloc: Global, count: u64, entries: Vec<Entry>) -> Vec<Entry>
    ensures few { count ≤ MOST_ENTRIES → result.items ≡ entries.items }
    ensures many { MOST_ENTRIES < count → result.items ≡ [] }
{
    if count <= MOST_ENTRIES {
        entries
    } else {
        Vec::new(alloc)
    }
}
