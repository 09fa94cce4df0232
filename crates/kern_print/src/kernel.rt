ghost use Rattle.std.specs.Prelude.{◌≡◌, IfOk};
ghost use Rattle.kern_print.specs.Canonical.{canonical_text};

use crate::decl::push_decls;
use crate::stmt::push_block;
use kern_tree::Kernel;
use pf_num::OutOfMemory;
use std::alloc::Global;

/// The canonical text of a kernel: a declaration or a statement in a line, and brackets exactly
/// where they are needed. What it reads as says `canonical_reads_back`.
pub fn print(alloc: Global, k: &Kernel) -> Result<Vec<u8>, OutOfMemory>
    ensures { IfOk result (λ text. text.items ≡ canonical_text k.now) }
{
    let mut out = Vec::new(alloc);
    push_decls(&mut out, k.decls.as_slice())?;
    push_block(&mut out, k.body.as_slice(), 0)?;
    Ok(out)
}
