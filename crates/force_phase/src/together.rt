ghost use Rattle.std.specs.Prelude.{◌≡◌, ◌<◌, ◌≤◌, ◌++◌, ◌∷◌, [], true, false, List, All, IfOk, OnOk, vec_len};
ghost use Rattle.pf_geom.specs.declared.edge.Edge.{Edge};
ghost use Rattle.kern_tree.specs.declared.kernel.Kernel.{Kernel};
ghost use Rattle.group_lists.specs.Whole.{GroupList};
ghost use Rattle.claim_board.specs.Seats.{seat_count, total_of, was_told};
ghost use Rattle.force_phase.specs.Claims.{HaveAllGroups, groups_claimed};
ghost use Rattle.force_phase.specs.Finished.{IsFoundIn};
ghost use Rattle.force_phase.specs.Found.{of_both};
ghost use Rattle.force_phase.specs.Working.{HasFinished, IsAtWork, groups_at};

use crate::found::Found;
use crate::phase::Claims;
use crate::worker::Worker;
use claim_board::{Board, Seat};
use pf_num::OutOfMemory;
use std::alloc::Global;

/// What workers found and claimed together, each of whom was told that no group is left. It ends the board.
pub(crate) fn taken_together(
    alloc: Global,
    board: Board,
    workers: Vec<Worker>,
) -> Result<(Found, Vec<Claims>), OutOfMemory>
    requires all { vec_len workers ≡ seat_count board }
    requires few { vec_len workers ≤ 64 }
    requires told { All (λ w. was_told w.seat ≡ true) workers.items }
    requires at_work { All (IsAtWork board) workers.items }
    ensures claims { IfOk result (λ r. HaveAllGroups (seat_count board) (total_of board) r.1.items) }
    ensures found { (edge : Edge) (kernel : Kernel) (groups : List GroupList)
        → All (λ w. HasFinished edge kernel groups w.share) workers.items
        → IfOk result (λ r. IsFoundIn edge kernel (groups_at groups (groups_claimed r.1.items)) r.0) }
{
    let mut all = Together {
        seats: Vec::new(alloc),
        claims: Vec::new(alloc),
        found: Found::nothing(alloc),
    };
    for worker in workers {
        all.take_in(worker)?;
    }
    board.close(all.seats);
    Ok((all.found, all.claims))
}

// The seats of workers by number, and what they claimed and found.
#[derive(Drop)]
struct Together {
    seats: Vec<Seat>,
    claims: Vec<Claims>,
    found: Found,
}

impl Together {
    // Takes in one worker more.
    fn take_in(&mut self, worker: Worker) -> Result<(), OutOfMemory>
        requires few { vec_len self.old.claims < 64 }
        ensures kept { OnOk result (worker.share.refused ≡ false) }
        ensures seats { OnOk result (self.new.seats.items ≡ self.old.seats.items ++ worker.seat ∷ []) }
        ensures claims { OnOk result (self.new.claims.items ≡ self.old.claims.items
            ++ (record { worker = vec_len self.old.claims; groups = worker.share.claims }) ∷ []) }
        ensures found { OnOk result (self.new.found ≡ of_both self.old.found worker.share.found) }
    {
        let Worker { seat, share } = worker;
        if share.refused {
            return Err(OutOfMemory);
        }
        let number = self.claims.len() as u32;
        self.claims.push(Claims {
            worker: number,
            groups: share.claims,
        })?;
        self.seats.push(seat)?;
        self.found.take_in(share.found)?;
        Ok(())
    }
}
