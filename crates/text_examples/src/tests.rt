ghost use Rattle.std.specs.Prelude.{IfOk};
ghost use Rattle.kern_tree.specs.Parsed.{IsParsed};

mod decks;
mod dumps;
mod lanes;
mod moves;
mod pairs;
mod parsing;
mod particles;
mod printing;
mod shown;
mod tokens;
mod typing;
mod words;

use kern_parse::parse;
use kern_token::{KernFault, MOST_TEXT};
use kern_tree::Kernel;
use std::alloc::Global;
use std::process::Abort;

// The kernel of a text, or the first fault of its tokens or of the grammar.
fn read(rt: &impl Abort, alloc: Global, text: &str) -> Result<Kernel, KernFault>
    ensures { IfOk result (λ kernel. IsParsed kernel) }
{
    assert!(rt; text.len() <= MOST_TEXT);
    let toks = kern_token::tokens(alloc, text.as_bytes())?;
    parse(alloc, toks.as_slice())
}
