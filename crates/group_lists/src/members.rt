ghost use Rattle.std.specs.Prelude.{◌≡◌, ◌<◌, ◌≤◌, Some, length, map, filter, slice_get, IsPermutation};
ghost use Rattle.std.specs.List.{range_with_len};
ghost use Rattle.pf_model.specs.Sufficiency.{lies_in, items_in};
ghost use Rattle.morton_tree.specs.Spans.{at_span};
ghost use Rattle.group_lists.specs.Listing.{OfGroup, OfEntry, OfSource, IsSpanOf, items_at_span, body_lies_in};

use crate::lists::Lists;
use morton_tree::Span;
use order_laws::tests_keep_spans;
use pf_model::{Body, Entry, MOST_PARTICLES};

impl Lists {
    /// Where the own bodies stand, in the tree of the build, that lie in an entry: the one at a place of a group's list.
    pub fn own_in(&self, group: u32, place: u32) -> Span
        requires group { group < length self.now.groups }
        requires place { OfGroup self.now.groups group (λ g. place < length g.entries) }
        ensures exactly { OfEntry self.now.groups group place (λ e. IsSpanOf (body_lies_in e) self.now.built result) }
        ensures bodies { OfEntry self.now.groups group place (λ e.
            at_span result self.now.built ≡ filter (body_lies_in e) self.now.built) }
    {
        tests_keep_spans::<Body>();
        let entry = &self.listed[group as usize].entries[place as usize];
        self.index.span_in(entry)
    }

    /// How many other ranks sent essential trees. Each has a number below that.
    pub fn sources(&self) -> usize
        ensures { result ≡ length self.now.sources }
    {
        self.sources.len()
    }

    /// Which rank a source is.
    pub fn source_rank(&self, source: usize) -> u32
        requires { source < length self.now.sources }
        ensures { slice_get (map (λ s. s.src) self.now.sources) source ≡ Some result }
    {
        self.sources[source].src
    }

    /// For each item of a source in key order the place at which it was sent, counted from 0.
    pub fn sent_places(&self, source: usize) -> &[u32]
        requires { source < length self.now.sources }
        ensures value { slice_get (map (λ s. s.places) self.now.sources) source ≡ Some result.now }
        ensures each_once { IsPermutation (range_with_len 0 (length result.now)) result.now }
        ensures few { length result.now ≤ MOST_PARTICLES }
        ensures items { OfSource self.now.sources source (λ s. length s.items ≡ length result.now) }
    {
        &self.sources[source].places
    }

    /// Where the items of a source stand, in key order, that lie in an entry: the one at a place of a group's list.
    pub fn items_in(&self, source: usize, group: u32, place: u32) -> Span
        requires source { source < length self.now.sources }
        requires group { group < length self.now.groups }
        requires place { OfGroup self.now.groups group (λ g. place < length g.entries) }
        ensures exactly { OfSource self.now.sources source (λ s. OfEntry self.now.groups group place (λ e.
            IsSpanOf (λ f. lies_in f e) s.items result)) }
        ensures items { OfSource self.now.sources source (λ s. OfEntry self.now.groups group place (λ e.
            items_at_span result s.items ≡ items_in e s.items)) }
    {
        tests_keep_spans::<Entry>();
        let entry = &self.listed[group as usize].entries[place as usize];
        self.sources[source].index.span_in(entry)
    }
}
