ghost use Rattle.std.specs.Prelude.{◌≡◌, ◌+◌, ◌<◌, ◌≤◌, List, All, Some, length, map, slice_get};
ghost use Rattle.morton_tree.specs.Spans.{at_span};
ghost use Rattle.group_lists.specs.Whole.{GroupList, HasMembers};
ghost use Rattle.group_lists.specs.Indexed.{AreWhole, group_list, source_items};

use crate::item_index::ItemIndex;
use crate::kept_source::KeptSource;
use crate::listed::Listed;
use morton_tree::Span;
use pf_model::{Body, Entry, MOST_PARTICLES};
use std::marker::Model;

/// The groups of one rank with their interaction lists over the particles of all ranks, and with what the entries of
/// these lists are made of.
#[derive(Drop)]
pub struct Lists {
    pub(crate) built: Vec<Body>,
    pub(crate) own: Vec<Body>,
    pub(crate) index: ItemIndex,
    pub(crate) listed: Vec<Listed>,
    pub(crate) sources: Vec<KeptSource>,
}

impl Model for Lists {
    ghost use Rattle.std.specs.Prelude.{map};
    ghost use Rattle.group_lists.specs.Listing.{Listing};
    ghost use Rattle.group_lists.specs.Indexed.{AreWhole, group_list, source_items};

    ghost Value = { Listing };

    ghost view = { λ s. record {
      built = s.built.items;
      own = s.own.items;
      groups = map (group_list s.own.items) s.listed.items;
      sources = map source_items s.sources.items;
    } };

    ghost invariant = { λ s. AreWhole s.built.items s.own.items s.index s.listed.items s.sources.items };
}

/// What has lists, as the lists themselves and those that are used again at later steps.
pub trait HasLists {
    ghost has: { Self → List GroupList };

    fn lists(&self) -> &Lists
        ensures { result.now.groups ≡ has self.now };
}

impl HasLists for Lists {
    ghost has = { λ lists. lists.groups };

    fn lists(&self) -> &Lists {
        self
    }
}

impl Lists {
    /// The interaction list of a group: its entries in order, of which each cell has members.
    pub fn entries(&self, group: u32) -> &[Entry]
        requires { group < length self.now.groups }
        ensures value { slice_get (map (λ l. l.entries) self.now.groups) group ≡ Some result.now }
        ensures few { length result.now ≤ MOST_PARTICLES }
        ensures some { All HasMembers result.now }
    {
        &self.listed[group as usize].entries
    }

    /// The bodies of a group.
    pub fn group(&self, n: u32) -> &[Body]
        requires { n < length self.now.groups }
        ensures { slice_get (map (λ l. l.bodies) self.now.groups) n ≡ Some result.now }
    {
        let span = self.listed[n as usize].group.span;
        let first = span.first as usize;
        &self.own[first..first + span.len as usize]
    }

    /// How many groups there are, at most `MOST_PARTICLES`.
    pub fn groups(&self) -> u32
        ensures value { result ≡ length self.now.groups }
        ensures few { result ≤ MOST_PARTICLES }
    {
        self.listed.len() as u32
    }

    /// Where the bodies of a group stand in the tree of the build.
    pub fn group_span(&self, group: u32) -> Span
        requires { group < length self.now.groups }
        ensures value { slice_get (map (λ l. l.span) self.now.groups) group ≡ Some result }
        ensures inside { result.first + result.len ≤ length self.now.built }
    {
        self.listed[group as usize].group.span
    }
}
