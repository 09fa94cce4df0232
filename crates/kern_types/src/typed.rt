ghost use Rattle.std.specs.Prelude.{◌≡◌, ◌⊎◌, IfOk, IfErr, OnOk};
ghost use Rattle.kern_tree.specs.Parsed.{IsParsed};
ghost use Rattle.kern_types.specs.WellTyped.{WellTyped, HasFirstTypeFault};
ghost use Rattle.kern_types.specs.Declarations as rules;
ghost use Rattle.kern_types.specs.Statements.{slots_in, targets_in};
ghost use Rattle.kern_types.specs.declared.fault.TypeFault.TheVariants.{Memory};

use crate::contributions::{count_slots, targets_of};
use crate::declarations::{check_decls, forces_of};
use crate::scope::Scope;
use crate::statements::check_block;
use crate::{ForceVar, TypeFault};
use kern_token::Name;
use kern_tree::Kernel;
use std::alloc::{AllocError, Global};
use std::marker::Model;

/// A kernel that is well typed.
#[derive(Debug, Drop)]
pub struct Typed {
    kernel: Kernel,
    forces: Vec<ForceVar>,
    slots: u32,
}

impl Model for Typed {
    ghost use Rattle.kern_tree.specs.declared.kernel.Kernel.{Kernel};
    ghost use Rattle.kern_types.specs.WellTyped.{IsTyped};
    ghost use Rattle.kern_tree.specs.contracts.kernel.Kernel.{the_row};

    ghost Value = { Kernel };

    ghost coded = { the_row.coded };

    ghost view = { λ t. t.kernel };

    ghost invariant = { λ t. IsTyped t.kernel t.forces.items t.slots };
}

/// The kernel, where it is well typed, or else its first fault.
pub fn check(alloc: Global, k: Kernel) -> Result<Typed, TypeFault>
    requires { IsParsed k }
    ensures kernel { IfOk result (λ typed. typed ≡ k) }
    ensures typed { OnOk result (WellTyped k) }
    ensures fault { IfErr result (λ fault. (fault ≡ Memory) ⊎ HasFirstTypeFault k fault) }
{
    check_kernel(alloc, &k)?;
    Ok(Typed {
        forces: forces_of(alloc, k.decls.as_slice())?,
        slots: count_slots(k.body.as_slice()),
        kernel: k,
    })
}

// Whether a kernel is well typed, also one that no text spells.
fn check_kernel(alloc: Global, k: &Kernel) -> Result<(), TypeFault>
    ensures ok { OnOk result (WellTyped k.now) }
    ensures err { IfErr result (λ fault. (fault ≡ Memory) ⊎ HasFirstTypeFault k.now fault) }
{
    let decls = k.decls.as_slice();
    check_decls(decls)?;
    let mut scope = Scope::new(alloc);
    check_block(decls, &mut scope, k.body.as_slice())
}

/// The kernel that was checked.
pub fn kernel(t: &Typed) -> &Kernel
    ensures value { result.now ≡ t.now }
    ensures parsed { IsParsed t.now }
    ensures typed { WellTyped t.now }
{
    &t.kernel
}

/// The FORCE variables in order of declaration.
pub fn forces(t: &Typed) -> &[ForceVar]
    ensures { result.now ≡ rules.forces_of t.now.decls }
{
    t.forces.as_slice()
}

/// The number of statements `+=`.
pub fn slots(t: &Typed) -> u32
    ensures { result ≡ slots_in t.now.body }
{
    t.slots
}

/// The name of the FORCE variable that each statement `+=` gives to, in text order.
pub fn targets(alloc: Global, t: &Typed) -> Result<Vec<Name>, AllocError>
    ensures { IfOk result (λ names. names.items ≡ targets_in t.now.body) }
{
    targets_of(alloc, t.kernel.body.as_slice())
}
