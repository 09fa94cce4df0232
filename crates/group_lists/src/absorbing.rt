ghost use Rattle.std.specs.Prelude.{◌≡◌, ◌+◌, ◌*◌, ◌^◌, ◌<◌, ◌≤◌, true, IfOk, OnOk, [], length, map};
ghost use Rattle.pf_model.specs.Interaction.{IsInListOrder};
ghost use Rattle.pf_model.specs.Merging.{merged};
ghost use Rattle.morton_tree.specs.Tree.{IsInKeyOrder};
ghost use Rattle.group_lists.specs.Gathering.{IsGathered, CanAbsorb, IsNewSource, gathering_of, with_source};
ghost use Rattle.group_lists.specs.Gathering.{source_count};
ghost use Rattle.group_lists.specs.Pieces.{HaveFewMembers, common_with};

use crate::gather::MOST_ENTRIES;
use crate::keyed_tree::KeyedTree;
use crate::laws::{
    common_pieces_are_occupied, groups_are_served, pieces_are_in_order, pieces_make_lists,
};
use crate::listed::Listed;
use crate::merging::{common_count, merge};
use crate::occupied::occupied_count;
use crate::pieces::find_pieces;
use cell_runs::CellRun;
use pf_geom::DEEPEST;
use pf_model::{Body, Entry, MOST_PARTICLES, Steps, Terms, Theta};
use pf_num::OutOfMemory;
use std::alloc::Global;
use std::sync::ledger::Ledger;

// Puts the pieces of all groups over one source into their lists, which are over the own bodies and the trees, and
// gives how long all lists are then together.
pub(crate) fn absorb_tree<T: Terms, L: Ledger>(
    alloc: Global,
    listed: &mut [Listed],
    before: u64,
    bodies: &[Body],
    trees: &[KeyedTree<T>],
    tree: &KeyedTree<T>,
    t: Theta,
    steps: &mut Steps<L>,
) -> Result<u64, OutOfMemory>
    requires gathered { IsGathered T.theta T.grid T.particles
        (gathering_of tree.now.dst bodies.now (map (λ l. l.group) listed.old) trees.now)
        (map (λ l. l.entries.items) listed.old) before }
    requires absorbs { CanAbsorb T.theta T.grid T.particles
        (gathering_of tree.now.dst bodies.now (map (λ l. l.group) listed.old) trees.now) t trees.now }
    requires new { IsNewSource T.grid
        (gathering_of tree.now.dst bodies.now (map (λ l. l.group) listed.old) trees.now) tree.now.src }
    ensures groups { OnOk result (map (λ l. l.group) listed.new ≡ map (λ l. l.group) listed.old) }
    ensures gathered { IfOk result (λ count. IsGathered T.theta T.grid T.particles
        (with_source (gathering_of tree.now.dst bodies.now (map (λ l. l.group) listed.old) trees.now) tree.now.src)
        (map (λ l. l.entries.items) listed.new) count) }
    ensures tests { OnOk result (steps.new ≤ steps.old
        + (DEEPEST + 1) * source_count T.theta T.grid T.particles (map (λ l. l.group) listed.old) tree.now.src) }
{
    pieces_make_lists();
    pieces_are_in_order();
    common_pieces_are_occupied();
    groups_are_served();
    let few = before <= MOST_ENTRIES;
    let mut runs = Vec::new(alloc);
    let mut pieces = Vec::new(alloc);
    let mut count = before;
    for one in listed.iter_mut() {
        find_pieces(tree, one.group.around, t, &mut runs, &mut pieces, steps)?;
        count = grow(alloc, one, &pieces, few, count, bodies, trees)?;
    }
    Ok(count)
}

// Puts pieces into the list of a group, while all lists are few, and gives how many entries they have then. Past
// that the list isn't kept, and of the pieces those count that have no place among what was gathered before.
fn grow<T: Terms>(
    alloc: Global,
    one: &mut Listed,
    pieces: &[Entry],
    few: bool,
    before: u64,
    bodies: &[Body],
    trees: &[KeyedTree<T>],
) -> Result<u64, OutOfMemory>
    requires pieces { IsInListOrder pieces.now }
    requires short { length pieces.now ≤ MOST_PARTICLES }
    requires small { before < 2 ^ 63 }
    requires bodies { IsInKeyOrder bodies.now }
    requires few { few ≡ true → IsInListOrder one.old.entries.items × HaveFewMembers pieces.now one.old.entries.items }
    ensures group { OnOk result (one.new.group ≡ one.old.group) }
    ensures count { IfOk result (λ count. count + common_with bodies.now trees.now few pieces.now one.old.entries.items
        ≡ before + length pieces.now) }
    ensures kept { IfOk result (λ count. few ≡ true → count ≤ MOST_ENTRIES
        → one.new.entries.items ≡ merged pieces.now one.old.entries.items) }
    ensures dropped { IfOk result (λ count. MOST_ENTRIES < count → one.new.entries.items ≡ []) }
{
    let common = common_with(few, pieces, &one.entries, bodies, trees);
    let added = pieces.len() - common;
    let count = before + added as u64;
    one.entries = if few && count <= MOST_ENTRIES {
        merge(alloc, pieces, &one.entries, one.entries.len() + added)?
    } else {
        Vec::new(alloc)
    };
    Ok(count)
}

// How many of the pieces have their cell among what was gathered before: in the list, if it is kept.
fn common_with<T: Terms>(
    few: bool,
    pieces: &[Entry],
    entries: &[Entry],
    bodies: &[Body],
    trees: &[KeyedTree<T>],
) -> usize
    requires bodies { IsInKeyOrder bodies.now }
    requires few { few ≡ true → IsInListOrder entries.now }
    ensures value { result ≡ common_with bodies.now trees.now few pieces.now entries.now }
    ensures within { result ≤ length pieces.now }
{
    if few {
        common_count(pieces, entries)
    } else {
        occupied_count(pieces, bodies, trees)
    }
}
