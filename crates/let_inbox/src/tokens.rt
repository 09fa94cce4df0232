ghost use Rattle.std.specs.Prelude.{◌≡◌, map};
ghost use Rattle.let_inbox.specs.Tokens.{taken_by, KeepsArrivals};

use crate::named::Named;
use crate::rule::PassView;
use crossbeam_queue::Pass;

/// The right to put one parcel, for one source.
#[derive(Drop)]
pub struct Putter<M> {
    pub(crate) source: u32,
    pub(crate) pass: Pass<M, PassView<M>>,
}

/// What is left of a putter: contracts see the parcel that was put.
#[derive(Drop)]
pub struct Spent<M> {
    pub(crate) source: u32,
    pub(crate) pass: Pass<M, PassView<M>>,
}

/// The right to take, and the sources taken so far.
#[derive(Drop)]
pub struct Taker<M> {
    pub(crate) arrivals: Vec<u32>,
    pub(crate) pass: Pass<M, PassView<M>>,
}

/// The sources taken, in order.
pub fn taken<M: Named>(t: &Taker<M>) -> &[u32]
    requires { KeepsArrivals M.source t.now }
    ensures { result.now ≡ map M.source (taken_by t.now) }
{
    t.arrivals.as_slice()
}
