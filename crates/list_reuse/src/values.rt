ghost use Rattle.std.specs.Prelude.{◌≡◌, ◌+◌, ◌<◌, ◌≤◌, length, map, take, drop, All, Contains};
ghost use Rattle.pf_model.specs.Sufficiency.{entry_moment, moment_together};
ghost use Rattle.pf_model.specs.declared.entry.Entry.{Entry};
ghost use Rattle.list_reuse.specs.Refreshing.{Renewal};
ghost use Rattle.list_reuse.specs.Renewing.{values_at};

use crate::refresh::Refresh;
use model_laws::{entries_join_their_moments, moments_join_in_any_order};
use morton_tree::Span;
use pf_model::{Entry, MOST_PARTICLES, Moment};

// The values that came from a rank.
pub(crate) fn values_from(parcels: &[Refresh], src: u32) -> &[Entry]
    requires { Contains (map (λ r. r.src) parcels.now) src }
    ensures { (r : Renewal) × Contains parcels.now r × (r.src ≡ src) × (result.now ≡ r.values) }
{
    for parcel in parcels {
        if parcel.src == src {
            return &parcel.values;
        }
    }
    unreachable!()
}

// The moment of the values at some places.
pub(crate) fn moment_of_values(values: &[Entry], places: &[u32]) -> Moment
    requires within { All (λ k. k < length values.now) places.now }
    requires few { (d : Entry) → (moment_together (values_at values.now d places.now)).count ≤ MOST_PARTICLES }
    ensures { (d : Entry) → result ≡ moment_together (values_at values.now d places.now) }
{
    moments_join_in_any_order();
    entries_join_their_moments();
    let mut sum = Moment::none();
    for place in places {
        sum = sum.merge(entry_moment(&values[*place as usize]));
    }
    sum
}

// The places of a span of them.
pub(crate) fn at_span(places: &[u32], span: Span) -> &[u32]
    requires { span.first + span.len ≤ length places.now }
    ensures { result.now ≡ take span.len (drop span.first places.now) }
{
    let first = span.first as usize;
    &places[first..first + span.len as usize]
}

// The moment of what an entry stands for.
fn entry_moment(entry: &Entry) -> Moment
    ensures { result ≡ entry_moment entry.now }
{
    match entry {
        Entry::Cell(_, moment) => *moment,
        Entry::One(body) => Moment::of_one(body),
    }
}
