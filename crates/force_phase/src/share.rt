ghost use Rattle.std.specs.Prelude.{◌≡◌, ◌<◌, ◌++◌, ◌∷◌, [], false, List, Some, IfOk, OnOk};
ghost use Rattle.std.specs.Prelude.{flat_map, length, slice_get};
ghost use Rattle.group_lists.specs.Whole.{GroupList};
ghost use Rattle.force_phase.specs.Finished.{IsFoundIn};
ghost use Rattle.force_phase.specs.Outcome.{IsWorkFor};
ghost use Rattle.force_phase.specs.Working.{HasFinished};

use crate::force::{Work, work_for};
use crate::found::Found;
use crate::group_out::{GroupOut, Outcome, evaluate, out_for};
use crate::numbered::group_of;
use group_lists::{HasLists, Lists};
use kern_types::Typed;
use pf_geom::Edge;
use pf_num::OutOfMemory;
use std::alloc::Global;

/// A worker's share of the groups: those that it claimed, and what they gave. Once it was refused memory, it is done
/// with its work.
#[derive(Drop)]
pub(crate) struct Share {
    pub(crate) claims: Vec<u32>,
    pub(crate) found: Found,
    pub(crate) work: Work,
    pub(crate) refused: bool,
}

impl Share {
    /// No group yet.
    pub(crate) fn nothing(alloc: Global, t: &Typed, edge: Edge) -> Result<Share, OutOfMemory>
        ensures fresh { IfOk result (λ share. (share.refused ≡ false) × (share.claims.items ≡ [])) }
        ensures finished { (groups : List GroupList) → IfOk result (HasFinished edge t.now groups) }
    {
        Ok(Share {
            claims: Vec::new(alloc),
            found: Found::nothing(alloc),
            work: work_for(alloc, t, edge)?,
            refused: false,
        })
    }

    /// Finishes one group more, unless memory was refused.
    pub(crate) fn take_on<H: HasLists>(
        &mut self,
        alloc: Global,
        t: &Typed,
        lists: &[H],
        number: u32,
    )
        requires number { number < length (flat_map H.has lists.now) }
        requires work { IsWorkFor t.now self.old.work }
        ensures refused { self.new.refused ≡ false → self.old.refused ≡ false }
        ensures claims { self.new.refused ≡ false → self.new.claims.items ≡ self.old.claims.items ++ number ∷ [] }
        ensures finished { (edge : Edge) → HasFinished edge t.now (flat_map H.has lists.now) self.old
            → HasFinished edge t.now (flat_map H.has lists.now) self.new }
    {
        if !self.refused {
            self.refused = self.finish(alloc, t, lists, number).is_err();
        }
    }

    // Finishes one group more.
    fn finish<H: HasLists>(
        &mut self,
        alloc: Global,
        t: &Typed,
        lists: &[H],
        number: u32,
    ) -> Result<(), OutOfMemory>
        requires number { number < length (flat_map H.has lists.now) }
        requires work { IsWorkFor t.now self.old.work }
        ensures work { IsWorkFor t.now self.new.work }
        ensures edge { self.new.work.edge ≡ self.old.work.edge }
        ensures claims { OnOk result (self.new.claims.items ≡ self.old.claims.items ++ number ∷ []) }
        ensures found { OnOk result ((g : GroupList) (before : List GroupList)
            → slice_get (flat_map H.has lists.now) number ≡ Some g
            → IsFoundIn self.old.work.edge t.now before self.old.found
            → IsFoundIn self.old.work.edge t.now (before ++ g ∷ []) self.new.found) }
    {
        self.claims.push(number)?;
        let (lists, group) = group_of(lists, number);
        add_group(alloc, t, lists, group, &mut self.work, &mut self.found)
    }
}

// Adds what a group gives.
fn add_group(
    alloc: Global,
    t: &Typed,
    lists: &Lists,
    group: u32,
    work: &mut Work,
    found: &mut Found,
) -> Result<(), OutOfMemory>
    requires group { group < length lists.now.groups }
    requires work { IsWorkFor t.now work.old }
    ensures work { IsWorkFor t.now work.new }
    ensures edge { work.new.edge ≡ work.old.edge }
    ensures found { OnOk result ((g : GroupList) (before : List GroupList) → slice_get lists.now.groups group ≡ Some g
        → IsFoundIn work.old.edge t.now before found.old
        → IsFoundIn work.old.edge t.now (before ++ g ∷ []) found.new) }
{
    let mut out = out_for(alloc, t, lists, group)?;
    match evaluate(t, lists, group, work, &mut out) {
        Outcome::Done => {
            let GroupOut { rows, .. } = out;
            found.add_rows(alloc, lists.group(group), rows)?;
        }
        Outcome::Fault(fault) => found.add_fault(fault),
    }
    Ok(())
}
