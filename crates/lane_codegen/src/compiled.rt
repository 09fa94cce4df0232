ghost use Rattle.std.specs.Prelude.{◌≡◌, IfOk};
ghost use Rattle.lane_codegen.specs.Meaning.{Means};
ghost use Rattle.lane_codegen.specs.Statements as rules;

use crate::statement::block_code;
use crate::writer::Writer;
use kern_meaning::typed_kernels_have_one_pair;
use kern_tree::{Kernel, parsed_kernels_keep_limits};
use kern_types::{Typed, assignments_fit, kernel};
use lane_code::{Code, RawCode};
use pf_num::OutOfMemory;
use std::alloc::Global;
use std::marker::Model;

/// A typed kernel with its code. Contracts see the kernel.
#[derive(Debug, Drop)]
pub struct Compiled {
    typed: Typed,
    code: Code,
}

impl Model for Compiled {
    ghost use Rattle.kern_tree.specs.declared.kernel.Kernel.{Kernel};
    ghost use Rattle.kern_tree.specs.contracts.kernel.Kernel.{the_row};
    ghost use Rattle.lane_codegen.specs.Meaning.{Means};

    ghost Value = { Kernel };

    ghost coded = { the_row.coded };

    ghost view = { λ c. c.typed };

    ghost invariant = { λ c. Means c.typed c.code };
}

impl Compiled {
    /// The kernel with the code that `compile` gives.
    pub fn new(alloc: Global, typed: Typed) -> Result<Compiled, OutOfMemory>
        ensures { IfOk result (λ compiled. compiled ≡ typed) }
    {
        let code = compile(alloc, &typed)?;
        Ok(Compiled { typed, code })
    }

    pub fn typed(&self) -> &Typed
        ensures { result.now ≡ self.now }
    {
        &self.typed
    }

    pub fn code(&self) -> &Code
        ensures { Means self.now result.now }
    {
        &self.code
    }
}

/// The code of a kernel, which means the kernel: for every particle and item it faults in the item's lane exactly where
/// the pair has a fault, and else gives the pair's contributions, in text order.
pub fn compile(alloc: Global, t: &Typed) -> Result<Code, OutOfMemory>
    ensures { IfOk result (λ code. Means t.now code) }
{
    parsed_kernels_keep_limits();
    assignments_fit();
    typed_kernels_have_one_pair();
    let raw = raw_code(alloc, kernel(t))?;
    Ok(Code { raw })
}

fn raw_code(alloc: Global, k: &Kernel) -> Result<RawCode, OutOfMemory>
    ensures { IfOk result (λ raw. raw ≡ rules.kernel_code k.now) }
{
    let mut table = Vec::new(alloc);
    let mut writer = Writer::new(alloc);
    block_code(
        k.decls.as_slice(),
        &mut table,
        &mut writer,
        0,
        k.body.as_slice(),
    )?;
    Ok(writer.into_raw())
}
