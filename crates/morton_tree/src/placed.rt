// The key and the id of a body, and its place in a list of bodies: what is sorted in its stead.
#[derive(Clone, Copy)]
pub(crate) struct Placed {
    pub key: u128,
    pub id: u32,
    pub place: u32,
}
