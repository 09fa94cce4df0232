ghost use Rattle.std.specs.Prelude.{◌≡◌, ℕ, ◌+◌, ◌*◌, ◌%◌, ◌<◌, ◌≤◌, [], IfOk, reverse, vec_len};
ghost use Rattle.std.specs.Vec.{vec_capacity};
ghost use Rattle.rank_workers.specs.Hands.{HavePlacesFor, AreDealt};

use pf_num::OutOfMemory;
use std::alloc::Global;

/// Deals ranks to so many hands in turn: rank r to hand r mod W.
pub(crate) fn deal<X: Drop>(
    alloc: Global,
    workers: usize,
    ranks: Vec<X>,
) -> Result<Vec<Vec<X>>, OutOfMemory>
    requires { 0 < workers }
    ensures { IfOk result (λ hands. AreDealt workers ranks.items hands.items) }
{
    let mut hands = empty_hands(alloc, workers)?;
    for (rank, x) in ranks.into_iter().enumerate() {
        hands[rank % workers].push(x)?;
    }
    Ok(hands)
}

fn empty_hands<X: Drop>(alloc: Global, workers: usize) -> Result<Vec<Vec<X>>, OutOfMemory>
    ensures { IfOk result (λ hands. AreDealt workers [] hands.items) }
{
    let mut hands = Vec::with_capacity(alloc, workers)?;
    for _worker in 0..workers {
        hands.push(Vec::new(alloc))?;
    }
    Ok(hands)
}

/// The ranks of all hands, by number, in a list that has room for them.
pub(crate) fn gather<X: Drop>(mut hands: Vec<Vec<X>>, room: Vec<X>, count: usize) -> Vec<X>
    requires some { 0 < vec_len hands }
    requires places { HavePlacesFor (vec_len hands) count hands.items }
    requires empty { room.items ≡ [] }
    requires room { count ≤ vec_capacity room }
    ensures len { vec_len result ≡ count }
    ensures each { AreDealt (vec_len hands) result.items hands.items }
{
    let workers = hands.len();
    let mut ranks = room;
    for rank in (0..count).rev() {
        let Some(x) = hands[rank % workers].pop() else {
            unreachable!();
        };
        ranks.push_reserved(x);
    }
    reversed(ranks)
}

fn reversed<X>(mut ranks: Vec<X>) -> Vec<X>
    ensures { result.items ≡ reverse ranks.items }
{
    ranks.reverse();
    ranks
}
