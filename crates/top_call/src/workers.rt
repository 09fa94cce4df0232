/// What a run's work is shared among: so many workers on the threads of a runtime, who call a gate as each phase of a
/// step begins.
#[derive(Drop)]
pub(crate) struct Workers<'a, R, G> {
    pub(crate) rt: &'a R,
    /// From 1 to 64.
    pub(crate) count: u32,
    pub(crate) gate: &'a G,
}
