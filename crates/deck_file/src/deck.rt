use kern_token::Name;
use pf_model::{Grid, Theta};

/// What a run is told: its files and its settings.
#[derive(Debug, Drop)]
pub struct Deck {
    /// The file of the kernel.
    pub kernel: Name,
    /// The file of the particles.
    pub particles: Name,
    /// The file that the dumps are written to.
    pub out: Name,
    pub grid: Grid,
    /// The opening angle, with what lies past the edge of the cube, which the key `box` says.
    pub theta: Theta,
    /// The most particles of a group.
    pub group: u32,
    /// The number of the last step.
    pub steps: u32,
    /// The length of a step in time.
    pub dt: u32,
    /// A build comes at each step that is a multiple of it.
    pub reuse: u32,
}
