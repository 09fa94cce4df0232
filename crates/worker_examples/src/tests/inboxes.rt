ghost use Rattle.std.specs.Prelude.{◌≡◌, ℕ, ◌<◌, ◌∷◌, [], map, All};
ghost use Rattle.let_inbox.specs.Sources.{IsSource, times};

use crate::desks::{desk_of, hand_over_between, open_two, send_both, settle_both};
use exchange::Parcel;
use let_inbox::{Inbox, taken};
use pf_num::OutOfMemory;
use std::alloc::Global;
use std::sync::Wait;
use std::test::Fail;
use std::thread::Threads;

// Whether the inbox of the only rank has no putter, and is empty once it is settled.
fn is_empty_alone<R: Wait>(rt: &R, alloc: Global) -> Result<bool, OutOfMemory> {
    let (inbox, mut taker, putters) = Inbox::<Parcel>::open(alloc, 0, 1)?;
    inbox.settle(&mut taker, Vec::new(alloc));
    let none = inbox.take(rt, &mut taker).is_none();
    Ok(none && putters.is_empty() && taken(&taker).is_empty())
}

#[test]
fn an_inbox_of_one_rank_is_empty(rt: HostRuntime) -> Result<(), Fail> {
    assert!(rt; is_empty_alone(&rt, rt.alloc())?);
    Ok(())
}

fn parcel(alloc: Global, src: u32, dst: u32) -> Parcel
    ensures names { (result.src ≡ src) × (result.dst ≡ dst) }
    ensures empty { result.bodies ≡ [] }
{
    Parcel {
        src,
        dst,
        bodies: Vec::new(alloc),
    }
}

// Whether an inbox is empty before a parcel is put, gives it once, and is empty then.
fn gives_once<R: Wait>(rt: &R, alloc: Global) -> Result<bool, OutOfMemory> {
    let (inbox, mut taker, mut putters) = Inbox::<Parcel>::open(alloc, 1, 2)?;
    let Some(putter) = putters.pop() else {
        return Ok(false);
    };
    let before = inbox.take(rt, &mut taker).is_none();
    let spent = inbox.put(rt, putter, parcel(alloc, 0, 1));
    let given = matches!(inbox.take(rt, &mut taker), Some(p) if p.src == 0);
    let after = inbox.take(rt, &mut taker).is_none();
    drop(spent);
    Ok(before && given && after && taken(&taker) == [0].as_slice())
}

#[test]
fn one_parcel_is_taken_once(rt: HostRuntime) -> Result<(), Fail> {
    assert!(rt; gives_once(&rt, rt.alloc())?);
    Ok(())
}

// Whether two ranks that sent each other one parcel in threads, and settled, have what the other sent.
fn settle_with_one_each<R: Threads + Wait + Sync>(
    rt: &R,
    alloc: Global,
) -> Result<bool, OutOfMemory> {
    let (inboxes, first, second) = open_two::<Parcel>(alloc)?;
    let first = desk_of(alloc, &inboxes, first, parcel(alloc, 0, 1))?;
    let second = desk_of(alloc, &inboxes, second, parcel(alloc, 1, 0))?;
    let (mut first, mut second) = send_both(rt, alloc, &inboxes, first, second)?;
    if first.post.rank() != 0 || second.post.rank() != 1 {
        return Ok(false);
    }
    hand_over_between(alloc, &inboxes, &mut first, &mut second)?;
    let (first, second) = settle_both(rt, alloc, &inboxes, first, second)?;
    let sources = first.post.sources() == [1].as_slice() && second.post.sources() == [0].as_slice();
    let parcels = first.post.parcels().len() == 1;
    let from_first = matches!(second.post.into_parcels().pop(), Some(p) if p.src == 0);
    Ok(sources && parcels && from_first)
}

#[test]
fn two_ranks_send_each_other_one_parcel_in_threads(rt: HostRuntime) -> Result<(), Fail> {
    assert!(rt; settle_with_one_each(&rt, rt.alloc())?);
    Ok(())
}
