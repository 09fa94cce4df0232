/// What the words ask for. `N` is how the name of a file is held: as a `&str` among the words, and in
/// definitions as its bytes.
#[derive(Clone, Copy, Debug, PartialEq, Eq)]
pub enum Command<N> {
    /// `run DECK [--workers W]`: the deck's name, and 1 to 64 workers.
    Run(N, u32),
    /// `bench N SEED [--workers W]`: 0 to 65,536 particles, the seed, and 1 to 64 workers.
    Bench(u32, u64, u32),
}
