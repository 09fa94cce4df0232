use kern_token::Name;
use kern_tree::{Combine, Kind};

/// A FORCE variable. The scale is the number of fraction bits.
#[derive(Clone, Debug, PartialEq, Eq, Drop)]
pub struct ForceVar {
    pub name: Name,
    pub kind: Kind,
    pub scale: u32,
    pub combine: Combine,
}
