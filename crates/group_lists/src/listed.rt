use morton_tree::Group;
use pf_model::Entry;

// A group and its interaction list.
#[derive(Drop)]
pub(crate) struct Listed {
    pub group: Group,
    pub entries: Vec<Entry>,
}
