ghost use Rattle.std.specs.Prelude.{◌≡◌, ◌+◌, ◌*◌, ◌≤◌, List, [], None, IfOk, IsPermutation, length};
ghost use Rattle.pf_geom.specs.Bounds.{Bounds};
ghost use Rattle.pf_model.specs.Particle.{Particle};
ghost use Rattle.pf_model.specs.Criterion.{Criterion};
ghost use Rattle.pf_model.specs.Domains.{particles_of, domain_box};
ghost use Rattle.pf_model.specs.EssentialTree.{essential_tree};
ghost use Rattle.morton_tree.specs.Tree.{IsUnmoved};
ghost use Rattle.multisection.specs.Regions.{IsTarget};
ghost use Rattle.essential_tree.specs.Sending.{IsSentOf};

use crate::listing::list_for;
use crate::sent::Sent;
use model_laws::lists_ignore_order;
use morton_tree::Tree;
use pf_geom::{Box3, DEEPEST};
use pf_model::{Entry, EssTree, Steps, Terms, Theta};
use pf_num::OutOfMemory;
use std::alloc::Global;
use std::marker::PhantomData;
use std::sync::ledger::Ledger;

/// The essential tree that rank `src` sends rank `dst`, from the tree of its bodies, which hasn't moved, and
/// the domain box of the receiver; where the receiver has no body it has no box, and gets the empty tree, for
/// which nothing is tested (Warren and Salmon 1993). What the sender keeps of it has the span of the members of
/// each item.
pub fn essential<T: Terms, L: Ledger>(
    alloc: Global,
    tree: &Tree,
    src: u32,
    dst: u32,
    to: Option<Box3>,
    t: Theta,
    steps: &mut Steps<L>,
) -> Result<(EssTree<T>, Sent), OutOfMemory>
    requires unmoved { IsUnmoved tree.now }
    requires own { IsPermutation tree.now.built (particles_of T.grid T.particles src) }
    requires target { IsTarget T.grid T.particles dst to }
    requires theta { t ≡ T.theta }
    ensures tree { IfOk result (λ r. r.0 ≡ record {
      src = src;
      dst = dst;
      items = essential_tree T.theta T.grid T.particles src dst;
    }) }
    ensures dst { IfOk result (λ r. r.1.dst ≡ dst) }
    ensures sent { IfOk result (λ r.
        IsSentOf T.theta (domain_box T.grid T.particles dst) tree.now.built r.0.items r.1) }
    ensures tests { IfOk result (λ r. steps.new ≤ steps.old + (DEEPEST + 1) * length r.0.items) }
    ensures no_receiver { to ≡ None → steps.new ≡ steps.old }
    ensures no_angle { t.a ≡ 0 → steps.new ≡ steps.old }
{
    lists_ignore_order();
    match to {
        Some(b) => {
            let (items, sent) = list_for(alloc, tree, dst, b, t, steps)?;
            Ok((tree_of(src, dst, items), sent))
        }
        None => Ok((tree_of(src, dst, Vec::new(alloc)), nothing_sent(alloc, dst))),
    }
}

// The essential tree of these items.
fn tree_of<T: Terms>(src: u32, dst: u32, items: Vec<Entry>) -> EssTree<T>
    requires { items.items ≡ essential_tree T.theta T.grid T.particles src dst }
    ensures { result ≡ record { src = src; dst = dst; items = items.items } }
{
    EssTree {
        src,
        dst,
        items,
        terms: PhantomData,
    }
}

// What is kept of the empty tree.
fn nothing_sent(alloc: Global, dst: u32) -> Sent
    ensures dst { result.dst ≡ dst }
    ensures nothing { (t : Criterion) (box : Bounds) (js : List Particle) → IsSentOf t box js [] result }
{
    Sent {
        dst,
        cells: Vec::new(alloc),
        spans: Vec::new(alloc),
    }
}
