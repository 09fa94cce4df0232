ghost use Rattle.std.specs.Prelude.{◌≡◌, [], ◌∷◌, ◌++◌, decimal, IfOk, OnOk};
ghost use Rattle.text_lines.specs.Written.{written_line};
ghost use Rattle.deck_file.specs.Keywords.{keyword_text};
ghost use Rattle.deck_file.specs.Printed.{angle_text, deck_text, division_text, edge_text, with_value};
ghost use Rattle.deck_file.specs.Settings.{setting_fields};

use crate::deck::Deck;
use crate::keyword::{Keyword, spelling};
use pf_geom::Edge;
use pf_io::push_decimal;
use pf_model::{Grid, Theta};
use pf_num::OutOfMemory;
use std::alloc::Global;

/// The canonical text of the deck: a line for each of the ten keys.
pub fn print(alloc: Global, deck: &Deck) -> Result<Vec<u8>, OutOfMemory>
    ensures { IfOk result (λ text. text.items ≡ deck_text deck.now) }
{
    let mut out = Vec::new(alloc);
    push_line(&mut out, Keyword::Kernel, deck.kernel.as_bytes())?;
    push_line(&mut out, Keyword::Particles, deck.particles.as_bytes())?;
    push_line(&mut out, Keyword::Out, deck.out.as_bytes())?;
    push_line(&mut out, Keyword::Grid, &grid_text(alloc, deck.grid)?)?;
    push_line(&mut out, Keyword::Theta, &angle_text(alloc, deck.theta)?)?;
    push_number(&mut out, Keyword::Group, deck.group)?;
    push_number(&mut out, Keyword::Steps, deck.steps)?;
    push_number(&mut out, Keyword::Dt, deck.dt)?;
    push_number(&mut out, Keyword::Reuse, deck.reuse)?;
    push_line(
        &mut out,
        Keyword::Box,
        edge_text(deck.theta.edge).as_bytes(),
    )?;
    Ok(out)
}

// The line of a key with this value.
fn push_line(out: &mut Vec<u8>, key: Keyword, value: &[u8]) -> Result<(), OutOfMemory>
    ensures { OnOk result (out.new.items ≡ out.old.items ++ written_line (setting_fields (with_value key value.now))) }
{
    push_key(out, key)?;
    out.extend_from_slice(value)?;
    out.push(b'\n')?;
    Ok(())
}

// The line of a key with a number.
fn push_number(out: &mut Vec<u8>, key: Keyword, number: u32) -> Result<(), OutOfMemory>
    ensures { OnOk result (out.new.items
        ≡ out.old.items ++ written_line (setting_fields (with_value key (decimal number)))) }
{
    push_key(out, key)?;
    push_decimal(out, i128::from(number))?;
    out.push(b'\n')?;
    Ok(())
}

// The key, and a blank.
fn push_key(out: &mut Vec<u8>, key: Keyword) -> Result<(), OutOfMemory>
    ensures { OnOk result (out.new.items ≡ out.old.items ++ (keyword_text key ++ 32 ∷ [])) }
{
    out.extend_from_slice(spelling(key).as_bytes())?;
    out.push(b' ')?;
    Ok(())
}

fn grid_text(alloc: Global, grid: Grid) -> Result<Vec<u8>, OutOfMemory>
    ensures { IfOk result (λ text. text.items ≡ division_text grid) }
{
    let mut out = Vec::new(alloc);
    push_decimal(&mut out, i128::from(grid.nx))?;
    out.push(b'x')?;
    push_decimal(&mut out, i128::from(grid.ny))?;
    out.push(b'x')?;
    push_decimal(&mut out, i128::from(grid.nz))?;
    Ok(out)
}

fn angle_text(alloc: Global, theta: Theta) -> Result<Vec<u8>, OutOfMemory>
    ensures { IfOk result (λ text. text.items ≡ angle_text theta.a theta.b) }
{
    let mut out = Vec::new(alloc);
    push_decimal(&mut out, i128::from(theta.a))?;
    out.push(b'/')?;
    push_decimal(&mut out, i128::from(theta.b))?;
    Ok(out)
}

fn edge_text(edge: Edge) -> &'static str
    ensures { result.now ≡ edge_text edge }
{
    match edge {
        Edge::Open => "open",
        Edge::Periodic => "periodic",
    }
}
