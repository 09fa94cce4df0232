use crate::item_index::ItemIndex;
use pf_model::Entry;

// What a source sent, in key order, with what finds its items: for each of them the place at which it was sent.
#[derive(Drop)]
pub(crate) struct KeptSource {
    pub src: u32,
    pub items: Vec<Entry>,
    pub places: Vec<u32>,
    pub index: ItemIndex,
}
