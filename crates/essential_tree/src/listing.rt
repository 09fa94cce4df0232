ghost use Rattle.std.specs.Prelude.{◌≡◌, ◌+◌, ◌*◌, ◌≤◌, IfOk, length};
ghost use Rattle.pf_model.specs.Interaction.{list_of};
ghost use Rattle.morton_tree.specs.Tree.{IsOctree, IsUnmoved};
ghost use Rattle.essential_tree.specs.Sending.{cells_among, IsSentOf};

use crate::sent::Sent;
use morton_tree::Tree;
use pf_geom::{Box3, Cell, DEEPEST};
use pf_model::{Entry, Steps, Theta};
use pf_num::OutOfMemory;
use std::alloc::Global;
use std::sync::ledger::Ledger;
use tree_lists::list_over;

// The list of a box over the bodies of a tree, and what is kept of it where it is sent to a rank.
pub(crate) fn list_for<L: Ledger>(
    alloc: Global,
    tree: &Tree,
    dst: u32,
    b: Box3,
    t: Theta,
    steps: &mut Steps<L>,
) -> Result<(Vec<Entry>, Sent), OutOfMemory>
    requires { IsUnmoved tree.now }
    ensures items { IfOk result (λ r. r.0.items ≡ list_of t b tree.now.built) }
    ensures dst { IfOk result (λ r. r.1.dst ≡ dst) }
    ensures sent { IfOk result (λ r. IsSentOf t b tree.now.built r.0.items r.1) }
    ensures tests { IfOk result (λ r. steps.new ≤ steps.old + (DEEPEST + 1) * length r.0.items) }
    ensures none { t.a ≡ 0 → steps.new ≡ steps.old }
    ensures tree { IsOctree tree.now }
{
    let mut runs = Vec::new(alloc);
    let (items, spans) = list_over(alloc, tree, b, t, &mut runs, steps)?;
    let cells = cells_among(alloc, &items)?;
    Ok((items, Sent { dst, cells, spans }))
}

// The cells among entries, in their order.
fn cells_among(alloc: Global, entries: &[Entry]) -> Result<Vec<Cell>, OutOfMemory>
    ensures { IfOk result (λ cells. cells.items ≡ cells_among entries.now) }
{
    let mut cells = Vec::new(alloc);
    for entry in entries {
        if let Entry::Cell(cell, _) = entry {
            cells.push(*cell)?;
        }
    }
    Ok(cells)
}
