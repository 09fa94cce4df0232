ghost use Rattle.std.specs.Prelude.{◌≡◌, ◌<◌, length, map};
ghost use Rattle.pf_model.specs.declared.entry.Entry.TheVariants.{One};
ghost use Rattle.group_lists.specs.Listing.{OfGroup, OfEntry, HasCount, HasId, IsWithEntry, with_moment, with_own};

use crate::lists::Lists;
use pf_model::{Body, Entry, Moment};

impl Lists {
    /// Gives the cell at a place of a group's list another moment, of as many members.
    pub fn set_moment(&mut self, group: u32, place: u32, moment: Moment)
        requires group { group < length self.old.groups }
        requires place { OfGroup self.old.groups group (λ g. place < length g.entries) }
        requires count { OfEntry self.old.groups group place (HasCount moment.count) }
        ensures { IsWithEntry self.old group place (with_moment moment) self.new }
    {
        let place = place as usize;
        let listed = &mut self.listed[group as usize];
        listed.entries[place] = with_moment(&listed.entries[place], moment);
    }

    /// Gives the particle at a place of a group's list another body, of the same id.
    pub fn set_body(&mut self, group: u32, place: u32, body: Body)
        requires group { group < length self.old.groups }
        requires place { OfGroup self.old.groups group (λ g. place < length g.entries) }
        requires id { OfEntry self.old.groups group place (HasId body.id) }
        ensures { IsWithEntry self.old group place (λ _. One body) self.new }
    {
        let listed = &mut self.listed[group as usize];
        listed.entries[place as usize] = Entry::One(body);
    }

    /// Gives the groups the own bodies anew: those of the build, with the same ids in the same order.
    pub fn set_own(&mut self, own: &[Body])
        requires { map (λ j. j.id) own.now ≡ map (λ j. j.id) self.old.built }
        ensures { self.new ≡ with_own own.now self.old }
    {
        self.own.copy_from_slice(own);
    }
}

// A cell with another moment. A particle stays as it is.
fn with_moment(entry: &Entry, moment: Moment) -> Entry
    ensures { result ≡ with_moment moment entry.now }
{
    match entry {
        Entry::Cell(cell, _) => Entry::Cell(*cell, moment),
        Entry::One(body) => Entry::One(*body),
    }
}
