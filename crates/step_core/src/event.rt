/// What can happen at a build, one event after another.
#[derive(Clone, Copy, Debug, PartialEq, Eq)]
pub enum Event {
    /// The essential tree of a source, the first number, is put into the inbox of a destination, the second.
    Put(u32, u32),
    /// A rank takes the front of its inbox.
    Take(u32),
    /// A worker claims the next group.
    Claim(u32),
    /// A worker finishes the group that it holds.
    Finish(u32),
}
