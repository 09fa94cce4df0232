/// The ranks whose essential trees came to a rank, in the order in which they came.
#[derive(Drop)]
pub struct Arrivals {
    pub rank: u32,
    pub sources: Vec<u32>,
}
