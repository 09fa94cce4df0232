ghost use Rattle.std.specs.Prelude.{◌≡◌, ◌≤◌, ◌^◌, length, true, IfErr, IfOk};
ghost use Rattle.kern_token.specs.declared.limits.TheConstants.{MOST_TEXT};
ghost use Rattle.deck_file.specs.Laws.{IsWithinLimits};
ghost use Rattle.deck_file.specs.Values.{is_name};
ghost use Rattle.command_frame.specs.Reading.{Interprets, IsItself, ReadsInput};
ghost use Rattle.command_frame.specs.Standing.{standing};
ghost use Rattle.command_frame.specs.Status.{HasRoom};
ghost use Rattle.command_frame.specs.Verdict.{Within};
ghost use Rattle.top_call.specs.Inputs.{DeckFileMeans, DeckMeans, KernelFileMeans, KernelMeans};
ghost use Rattle.top_call.specs.Inputs.{ParticleFileMeans, ParticlesMean};
ghost use Rattle.top_call.specs.Run.{EndsRun};
ghost use Rattle.top_call.specs.Refusals.{IsNoMemory, deck_refused, kernel_refused, particles_refused, types_refused};

use crate::status::{Refusal, Status};
use command_frame::load;
use deck_file::{Deck, DeckFault, decks_keep_their_limits};
use kern_parse::parse;
use kern_token::{KernFault, MOST_TEXT, Name, tokens};
use kern_types::{TypeFault, Typed, check};
use particle_file::{PartFault, Particles};
use pf_io::Store;
use std::alloc::Global;
use std::str;

// The most bytes of a particle file.
const MOST_PARTICLE_BYTES: usize = 1 << 24;

// The text of the file of this name. One of more than `limit` bytes is refused as `too_large`.
fn text_of<S: Store>(
    alloc: Global,
    store: &mut S,
    name: &str,
    limit: usize,
    too_large: Refusal,
) -> Result<Vec<u8>, Status>
    requires limit { limit ≤ 2 ^ 28 }
    requires room { HasRoom (S.faults store.old) }
    requires no_memory { IsNoMemory too_large }

    ensures reads { ReadsInput (Within limit too_large IsItself) (λ v. v.items) name.now result
        (standing (S.told store.old) (S.faults store.old) (S.is_steady store.old))
        (standing (S.told store.new) (S.faults store.new) (S.is_steady store.new)) }
    ensures within { IfOk result (λ v. length v.items ≤ limit) }
    ensures ends { IfErr result EndsRun }
{
    match load(alloc, store, name, limit, too_large) {
        Ok(text) => Ok(text),
        // The same refusal, which `load` states only of a store that tells its contents.
        Err(Status::Refused(_)) => Err(Status::Refused(too_large)),
        Err(status) => Err(status),
    }
}

/// The deck in the file of this name.
pub(crate) fn read_deck<S: Store>(alloc: Global, store: &mut S, name: &str) -> Result<Deck, Status>
    requires { HasRoom (S.faults store.old) }
    ensures reads { ReadsInput DeckFileMeans (λ deck. deck) name.now result
        (standing (S.told store.old) (S.faults store.old) (S.is_steady store.old))
        (standing (S.told store.new) (S.faults store.new) (S.is_steady store.new)) }
    ensures within { IfOk result IsWithinLimits }
    ensures ends { IfErr result EndsRun }
{
    let text = text_of(alloc, store, name, MOST_TEXT, Refusal::DeckTooLarge)?;
    deck_in(alloc, &text)
}

// The deck that a text spells.
fn deck_in(alloc: Global, text: &[u8]) -> Result<Deck, Status>
    requires { length text.now ≤ MOST_TEXT }
    ensures interprets { Interprets DeckMeans (λ deck. deck) text.now result }
    ensures within { IfOk result IsWithinLimits }
    ensures ends { IfErr result EndsRun }
{
    decks_keep_their_limits();
    match deck_file::read(alloc, text) {
        Ok(deck) => Ok(deck),
        Err(fault) => Err(deck_refused(fault)),
    }
}

/// The name of a file in a deck, as a text.
pub(crate) fn file_name(name: &Name) -> &str
    requires { is_name name.now ≡ true }
    ensures { result.now ≡ name.now }
{
    str::from_utf8(name.as_bytes()).unwrap()
}

/// The kernel in the file of this name.
pub(crate) fn read_kernel<S: Store>(
    alloc: Global,
    store: &mut S,
    name: &str,
) -> Result<Typed, Status>
    requires { HasRoom (S.faults store.old) }
    ensures reads { ReadsInput KernelFileMeans (λ kernel. kernel) name.now result
        (standing (S.told store.old) (S.faults store.old) (S.is_steady store.old))
        (standing (S.told store.new) (S.faults store.new) (S.is_steady store.new)) }
    ensures ends { IfErr result EndsRun }
{
    let text = text_of(alloc, store, name, MOST_TEXT, Refusal::KernelTooLarge)?;
    kernel_in(alloc, &text)
}

// The kernel that a text spells and that is well typed.
fn kernel_in(alloc: Global, text: &[u8]) -> Result<Typed, Status>
    requires { length text.now ≤ MOST_TEXT }
    ensures interprets { Interprets KernelMeans (λ kernel. kernel) text.now result }
    ensures ends { IfErr result EndsRun }
{
    let tokens = tokens(alloc, text).map_err(kernel_refused)?;
    let kernel = parse(alloc, &tokens).map_err(kernel_refused)?;
    match check(alloc, kernel) {
        Ok(typed) => Ok(typed),
        Err(fault) => Err(types_refused(fault)),
    }
}

/// The particles in the file of this name.
pub(crate) fn read_particles<S: Store>(
    alloc: Global,
    store: &mut S,
    name: &str,
) -> Result<Particles, Status>
    requires { HasRoom (S.faults store.old) }
    ensures reads { ReadsInput ParticleFileMeans (λ particles. particles) name.now result
        (standing (S.told store.old) (S.faults store.old) (S.is_steady store.old))
        (standing (S.told store.new) (S.faults store.new) (S.is_steady store.new)) }
    ensures ends { IfErr result EndsRun }
{
    let text = text_of(
        alloc,
        store,
        name,
        MOST_PARTICLE_BYTES,
        Refusal::ParticlesTooLarge,
    )?;
    particles_in(alloc, &text)
}

// The particles that a text spells.
fn particles_in(alloc: Global, text: &[u8]) -> Result<Particles, Status>
    requires { length text.now ≤ 2 ^ 24 }
    ensures interprets { Interprets ParticlesMean (λ particles. particles) text.now result }
    ensures ends { IfErr result EndsRun }
{
    match particle_file::read(alloc, text) {
        Ok(particles) => Ok(particles),
        Err(fault) => Err(particles_refused(fault)),
    }
}

// Want of memory is the command's own; any other fault refuses the input.

fn deck_refused(fault: DeckFault) -> Status
    ensures status { result ≡ deck_refused fault }
    ensures ends { EndsRun result }
{
    match fault {
        DeckFault::Memory => Status::Memory,
        _ => Status::Refused(Refusal::Deck(fault)),
    }
}

fn kernel_refused(fault: KernFault) -> Status
    ensures status { result ≡ kernel_refused fault }
    ensures ends { EndsRun result }
{
    match fault {
        KernFault::Memory => Status::Memory,
        _ => Status::Refused(Refusal::Kernel(fault)),
    }
}

fn types_refused(fault: TypeFault) -> Status
    ensures status { result ≡ types_refused fault }
    ensures ends { EndsRun result }
{
    match fault {
        TypeFault::Memory => Status::Memory,
        _ => Status::Refused(Refusal::Types(fault)),
    }
}

fn particles_refused(fault: PartFault) -> Status
    ensures status { result ≡ particles_refused fault }
    ensures ends { EndsRun result }
{
    match fault {
        PartFault::Memory => Status::Memory,
        _ => Status::Refused(Refusal::Particles(fault)),
    }
}
