ghost use Rattle.std.specs.Prelude.{◌≡◌, ◌≢◌, ◌^◌, ◌≤◌, ◌⊎◌, [], Err, Ok, IfOk, IfErr, MatchOption, MatchResult, IsTrue, IfSome, IsNone, length};
ghost use Rattle.std.specs.Cmp.Lexicographic.{pointwise};
ghost use Rattle.std.specs.Option.{option_map};
ghost use Rattle.std.specs.List.{AllByRecursion};
ghost use Rattle.pf_model.specs.Particles.{AreBodies};
ghost use Rattle.particle_file.specs.FirstFault.{HasFirstParticleFault};
ghost use Rattle.particle_file.specs.Reading.{two_of, is_header, count_in, particles_read, counted_in, reading_of, reading, GivesParticlesUnlessMemory};
ghost use Rattle.particle_file.specs.Spelling.{IsPlain, SpellsText};
ghost use Rattle.particle_file.specs.declared.fault.PartFault.TheVariants.{Memory};

use crate::columns::{body_of, numbers_in};
use crate::laws::reading_is_spelling;
use crate::{PartFault, Particles};
use pf_model::{Body, MOST_PARTICLES};
use std::alloc::Global;
use std::collections::BTreeSet;
use text_lines::{Line, Lines, NumberFault, digits_in};

/// The particles that a text of at most 2^31 bytes spells, or its first fault.
pub fn read(alloc: Global, text: &[u8]) -> Result<Particles, PartFault>
    requires { length text.now ≤ 2 ^ 31 }
    ensures spelled { IfOk result (λ particles. SpellsText text.now particles) }
    ensures plain { IfOk result (λ particles. AllByRecursion IsPlain particles) }
    ensures first { IfErr result (λ fault. (fault ≡ Memory) ⊎ HasFirstParticleFault text.now fault) }
    // Each answer comes wherever it is the text's reading, but for want of memory.
    ensures exact { GivesParticlesUnlessMemory result (reading text.now) }
{
    reading_is_spelling();
    let mut lines = Lines::new(text);
    let due = head(&mut lines)?;
    let bodies = bodies_in(alloc, &mut lines, due)?;
    match lines.next_line() {
        None => Ok(Particles { bodies }),
        Some(line) => Err(PartFault::Trailing(line.number)),
    }
}

// The count of the particles, after the header.
fn head(lines: &mut Lines<'_>) -> Result<u32, PartFault>
    ensures ok { IfOk result (λ due. reading_of lines.old.count lines.old.ahead
        ≡ particles_read lines.old.count due [] lines.new.ahead) }
    ensures few { IfOk result (λ due. due ≤ MOST_PARTICLES) }
    ensures count { lines.new.count ≡ lines.old.count }
    ensures err { IfErr result (λ fault. reading_of lines.old.count lines.old.ahead ≡ Err fault) }
{
    let Some(header) = lines.next_line() else {
        return Err(PartFault::Header);
    };
    if !is_header(header) {
        return Err(PartFault::Header);
    }
    let Some(count) = lines.next_line() else {
        return Err(PartFault::Count);
    };
    count_in(count)
}

fn is_header(line: Line<'_>) -> bool
    ensures { result ≡ is_header line.entry.fields }
{
    match two_of(line) {
        Some((key, version)) => key == b"particles".as_slice() && version == b"1".as_slice(),
        None => false,
    }
}

fn count_in(line: Line<'_>) -> Result<u32, PartFault>
    ensures exact { result ≡ count_in line.entry.fields }
    ensures few { IfOk result (λ due. due ≤ MOST_PARTICLES) }
{
    let Some((key, value)) = two_of(line) else {
        return Err(PartFault::Count);
    };
    if key != b"count".as_slice() {
        return Err(PartFault::Count);
    }
    match digits_in(value, 0, MOST_PARTICLES) {
        Ok(count) => Ok(count),
        Err(NumberFault::NoNumber) => Err(PartFault::Count),
        Err(NumberFault::OutOfRange) => Err(PartFault::TooMany),
    }
}

// The two fields of a line that has just two.
fn two_of(line: Line<'_>) -> Option<(&[u8], &[u8])>
    ensures { option_map (λ p. (p.0.now, p.1.now)) result ≡ two_of line.entry.fields }
{
    let Line {
        number: _,
        mut fields,
    } = line;
    let key = fields.next_field()?;
    let value = fields.next_field()?;
    match fields.next_field() {
        None => Some((key, value)),
        Some(_) => None,
    }
}

// As many particles as are due, each of a line.
fn bodies_in(alloc: Global, lines: &mut Lines<'_>, due: u32) -> Result<Vec<Body>, PartFault>
    requires { due ≤ MOST_PARTICLES }
    ensures ok { IfOk result (λ bodies. particles_read lines.old.count due [] lines.old.ahead
        ≡ particles_read lines.old.count 0 bodies.items lines.new.ahead) }
    ensures bodies { IfOk result (λ bodies. AreBodies bodies.items) }
    ensures count { lines.new.count ≡ lines.old.count }
    ensures err { IfErr result (λ fault. (fault ≡ Memory)
        ⊎ (particles_read lines.old.count due [] lines.old.ahead ≡ Err fault)) }
{
    let mut ids = BTreeSet::new(alloc);
    let mut bodies = Vec::new(alloc);
    for _ in 0..due {
        let Some(line) = lines.next_line() else {
            return Err(PartFault::Short(lines.count() + 1));
        };
        let number = line.number;
        let numbers = numbers_in(line)?;
        let body = body_of(numbers);
        let is_new = ids.insert(body.id)?;
        if !is_new {
            return Err(PartFault::DuplicateId(number));
        }
        bodies.push(body)?;
    }
    Ok(bodies)
}
