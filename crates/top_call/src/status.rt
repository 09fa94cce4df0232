ghost use Rattle.std.specs.Prelude.{◌≡◌};
ghost use Rattle.top_call.specs.Status.{code_of};

use deck_file::DeckFault;
use kern_token::KernFault;
use kern_types::TypeFault;
use particle_file::PartFault;
use run_model::Fault;

/// Why an input is refused: it is too large, or this is its first fault, which is never want of memory.
#[derive(Clone, Copy, Debug, PartialEq, Eq, Hash)]
pub enum Refusal {
    DeckTooLarge,
    Deck(DeckFault),
    KernelTooLarge,
    Kernel(KernFault),
    Types(TypeFault),
    ParticlesTooLarge,
    Particles(PartFault),
}

/// How a command ended.
pub type Status = command_frame::Status<Refusal, Fault>;

/// The exit status of the program.
pub fn code(s: &Status) -> u8
    ensures { result ≡ code_of s.now }
{
    match s {
        Status::Done => 0,
        Status::Usage => 2,
        Status::Refused(_) => 3,
        Status::Numeric(_, _) => 4,
        Status::Lists(_, _) => 5,
        Status::StoreFault(_) => 6,
        Status::Memory => 7,
    }
}
