ghost use Rattle.std.specs.Prelude.{◌≡◌, List, IfOk, map};
ghost use Rattle.pf_model.specs.Particle.{Particle};
ghost use Rattle.list_reuse.specs.Keeping.{Motion, AreKept, IsRenewal, at_time};

use crate::laws::laws;
use crate::refresh::Refresh;
use crate::renewing::renew_group;
use group_lists::{HasLists, Lists};
use morton_tree::Tree;
use pf_num::OutOfMemory;
use std::alloc::Global;
use std::marker::Model;

/// The lists of a build, which are kept while its particles move.
#[derive(Drop)]
pub struct Kept {
    lists: Lists,
}

impl Model for Kept {
    ghost use Rattle.group_lists.specs.Listing.{Listing};

    ghost Value = { Listing };

    ghost view = { λ k. k.lists };
}

impl HasLists for Kept {
    ghost has = { λ kept. kept.groups };

    fn lists(&self) -> &Lists {
        &self.lists
    }
}

impl Kept {
    /// Lists as they came from a build.
    pub fn of(_alloc: Global, lists: Lists) -> Result<Kept, OutOfMemory>
        ensures { IfOk result (λ kept. kept ≡ lists) }
    {
        Ok(Kept { lists })
    }

    /// Renews the lists: each cell has the moment of its members where they are now, and each particle, in the lists
    /// and in the groups, is as it is now. The octree is that of the build, moved, and there is one parcel of every
    /// other rank, with the values that `refreshed` gives.
    pub fn refresh(&mut self, own: &Tree, parcels: &[Refresh])
        ghost m: { Motion }
        requires kept { (before : List Particle) × AreKept (at_time m before) self.old }
        requires tree { own.now.built ≡ self.old.built }
        requires renewal { IsRenewal m own.now parcels.now }
        ensures kept { AreKept m self.new }
        ensures built { self.new.built ≡ self.old.built }
        ensures spans { map (λ l. l.span) self.new.groups ≡ map (λ l. l.span) self.old.groups }
    {
        renew(&mut self.lists, own, parcels);
    }
}

// Renews lists.
fn renew(lists: &mut Lists, own: &Tree, parcels: &[Refresh])
    ghost m: { Motion }
    requires kept { (before : List Particle) × AreKept (at_time m before) lists.old }
    requires tree { own.now.built ≡ lists.old.built }
    requires renewal { IsRenewal m own.now parcels.now }
    ensures kept { AreKept m lists.new }
    ensures built { lists.new.built ≡ lists.old.built }
    ensures spans { map (λ l. l.span) lists.new.groups ≡ map (λ l. l.span) lists.old.groups }
{
    laws();
    lists.set_own(own.bodies());
    for group in 0..lists.groups() {
        renew_group(lists, own, parcels, group);
    }
}
