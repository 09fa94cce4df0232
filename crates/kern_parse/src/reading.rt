ghost use Rattle.std.specs.Prelude.{◌≡◌, ◌⊎◌, ℕ, List, Result, Ok, Err, IfOk, IfErr};
ghost use Rattle.kern_token.specs.Reading.{Spells, GivesUnlessMemory};
ghost use Rattle.kern_token.specs.declared.fault.KernFault.{KernFault};
ghost use Rattle.kern_token.specs.declared.fault.KernFault.TheVariants.{Memory};
ghost use Rattle.kern_tree.specs.FirstFault.{IsKernelOf, HasFirstFault, Parses};
ghost use Rattle.kern_tree.specs.declared.kernel.Kernel.{Kernel};

use crate::reader::Reader;
use crate::{KernFault, Kernel, Token};
use kern_token::tokens_stand_in_order;
use kern_tree::{one_answer, trees_by_form};
use std::alloc::Global;

/// The kernel that the tokens of a text spell. Where they spell none, or one past a limit, the
/// answer is their first fault, which is `Unexpected`, `TooDeep` or `TooManyNodes`.
pub fn parse(alloc: Global, toks: &[Token]) -> Result<Kernel, KernFault>
    requires { (text : List ℕ) × Spells text toks.now }
    ensures ok { IfOk result (λ kernel. IsKernelOf toks.now kernel) }
    ensures err { IfErr result (λ fault. (fault ≡ Memory) ⊎ HasFirstFault toks.now fault) }
    // Each answer comes wherever it is the right one, but for want of memory.
    ensures exact { (parsed : Result Kernel KernFault) → Parses toks.now parsed
        → GivesUnlessMemory (λ kernel. kernel) result parsed }
{
    tokens_stand_in_order();
    trees_by_form();
    one_answer();
    let mut reader = Reader::new(alloc, toks);
    let decls = reader.declarations()?;
    let body = reader.statements()?;
    match reader.next() {
        None => Ok(Kernel { decls, body }),
        Some(_) => Err(reader.unexpected()),
    }
}
