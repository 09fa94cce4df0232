ghost use Rattle.std.specs.Prelude.{◌≡◌, ◌<◌, [], ◌∷◌, Some, length, map, slice_get, slice_set, MatchOption};
ghost use Rattle.pf_model.specs.declared.entry.Entry.TheVariants.{One};
ghost use Rattle.pf_model.specs.Sums.{moment_of};
ghost use Rattle.pf_model.specs.Interaction.{members_of};
ghost use Rattle.pf_model.specs.Group.{box_of};
ghost use Rattle.pf_model.specs.Particle.{Particle};
ghost use Rattle.pf_model.specs.Reuse.{present, as_in};
ghost use Rattle.morton_tree.specs.Spans.{at_span};
ghost use Rattle.group_lists.specs.Listing.{OfGroup, OfSource};
ghost use Rattle.list_reuse.specs.Keeping.{Motion};
ghost use Rattle.list_reuse.specs.Renewing.{CanRenew, IsOwnTree, OfBuilt, rank_members, entry_now};
ghost use Rattle.list_reuse.specs.Renewing.{with_group, renewed_group};

use crate::laws::laws;
use crate::refresh::Refresh;
use crate::values::{at_span, moment_of_values, values_from};
use group_lists::Lists;
use morton_tree::Tree;
use pf_model::{Body, Entry, Moment};

// The moment of the members of an entry that a source has.
fn part_of(lists: &Lists, parcels: &[Refresh], source: usize, group: u32, place: u32) -> Moment
    ghost m: { Motion }
    requires can { CanRenew m lists.now parcels.now }
    requires source { source < length lists.now.sources }
    requires group { group < length lists.now.groups }
    requires place { OfGroup lists.now.groups group (λ l. place < length l.entries) }
    ensures { OfBuilt m lists.now group place (λ l e. OfSource lists.now.sources source (λ s.
        result ≡ moment_of (rank_members m lists.now.built l e s.src))) }
{
    laws();
    let values = values_from(parcels, lists.source_rank(source));
    let span = lists.items_in(source, group, place);
    moment_of_values(values, at_span(lists.sent_places(source), span))
}

// The moment of the members of an entry.
fn moment_now(lists: &Lists, own: &Tree, parcels: &[Refresh], group: u32, place: u32) -> Moment
    ghost m: { Motion }
    requires can { CanRenew m lists.now parcels.now }
    requires own { IsOwnTree m lists.now.built own.now }
    requires group { group < length lists.now.groups }
    requires place { OfGroup lists.now.groups group (λ l. place < length l.entries) }
    ensures { OfBuilt m lists.now group place (λ l e. result
        ≡ moment_of (present m.now (members_of m.theta (box_of (at_span l.span lists.now.built)) m.particles e))) }
{
    laws();
    let mut moment = own.moment(lists.own_in(group, place));
    for source in 0..lists.sources() {
        moment = moment.merge(part_of(lists, parcels, source, group, place));
    }
    moment
}

// The particle of an entry, if the source has it.
fn body_of(
    lists: &Lists,
    parcels: &[Refresh],
    source: usize,
    group: u32,
    place: u32,
) -> Option<Body>
    ghost m: { Motion }
    requires can { CanRenew m lists.now parcels.now }
    requires source { source < length lists.now.sources }
    requires group { group < length lists.now.groups }
    requires place { OfGroup lists.now.groups group (λ l. place < length l.entries) }
    ensures { OfBuilt m lists.now group place (λ l e. OfSource lists.now.sources source (λ s.
        (p : Particle) → e ≡ One p → MatchOption result (rank_members m lists.now.built l e s.src ≡ [])
        (λ body. body ≡ as_in m.now p))) }
{
    laws();
    let values = values_from(parcels, lists.source_rank(source));
    let span = lists.items_in(source, group, place);
    let places = lists.sent_places(source);
    if span.len == 0 {
        return None;
    }
    let place_sent = places[span.first as usize] as usize;
    let value = values[place_sent];
    match value {
        Entry::One(body) => Some(body),
        Entry::Cell(..) => None,
    }
}

// The particle of an entry.
fn body_now(lists: &Lists, own: &Tree, parcels: &[Refresh], group: u32, place: u32) -> Option<Body>
    ghost m: { Motion }
    requires can { CanRenew m lists.now parcels.now }
    requires own { IsOwnTree m lists.now.built own.now }
    requires group { group < length lists.now.groups }
    requires place { OfGroup lists.now.groups group (λ l. place < length l.entries) }
    ensures { OfBuilt m lists.now group place (λ l e. (p : Particle) → e ≡ One p → result ≡ Some (as_in m.now p)) }
{
    laws();
    let span = lists.own_in(group, place);
    if span.len > 0 {
        return Some(own.bodies()[span.first as usize]);
    }
    for source in 0..lists.sources() {
        if let Some(body) = body_of(lists, parcels, source, group, place) {
            return Some(body);
        }
    }
    None
}

// The entry at a place of a group's list, as it is now.
fn entry_now(lists: &Lists, own: &Tree, parcels: &[Refresh], group: u32, place: u32) -> Entry
    ghost m: { Motion }
    requires can { CanRenew m lists.now parcels.now }
    requires own { IsOwnTree m lists.now.built own.now }
    requires group { group < length lists.now.groups }
    requires place { OfGroup lists.now.groups group (λ l. place < length l.entries) }
    ensures { OfBuilt m lists.now group place (λ l e. result ≡ entry_now m lists.now.built l e) }
{
    laws();
    let entry = lists.entries(group)[place as usize];
    match entry {
        Entry::Cell(cell, _) => Entry::Cell(cell, moment_now(lists, own, parcels, group, place)),
        Entry::One(body) => {
            let found = body_now(lists, own, parcels, group, place);
            Entry::One(found.unwrap_or(body))
        }
    }
}

// Renews the entry at a place of a group's list.
fn renew_entry(lists: &mut Lists, own: &Tree, parcels: &[Refresh], group: u32, place: u32)
    ghost m: { Motion }
    requires can { CanRenew m lists.old parcels.now }
    requires own { IsOwnTree m lists.old.built own.now }
    requires group { group < length lists.old.groups }
    requires place { OfGroup lists.old.groups group (λ l. place < length l.entries) }
    ensures { OfBuilt m lists.old group place (λ l e. lists.new
        ≡ with_group lists.old group (record l {
          entries = slice_set l.entries place (entry_now m lists.old.built l e);
        })) }
{
    laws();
    match entry_now(lists, own, parcels, group, place) {
        Entry::Cell(_, moment) => lists.set_moment(group, place, moment),
        Entry::One(body) => lists.set_body(group, place, body),
    }
}

// Renews the list of a group.
pub(crate) fn renew_group(lists: &mut Lists, own: &Tree, parcels: &[Refresh], group: u32)
    ghost m: { Motion }
    requires can { CanRenew m lists.old parcels.now }
    requires own { IsOwnTree m lists.old.built own.now }
    requires group { group < length lists.old.groups }
    ensures { OfGroup lists.old.groups group (λ l. lists.new
        ≡ with_group lists.old group (renewed_group m lists.old.built l)) }
{
    laws();
    for place in 0..lists.entries(group).len() {
        renew_entry(lists, own, parcels, group, place as u32);
    }
}
