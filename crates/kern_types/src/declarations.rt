ghost use Rattle.std.specs.Prelude.{◌≡◌, IfOk, codes};
ghost use Rattle.std.specs.Option.{option_copied};
ghost use Rattle.kern_types.specs.Declarations as rules;
ghost use Rattle.kern_types.specs.Names as meanings;

use crate::fields::{Field, item_field, particle_field};
use crate::{ForceVar, TypeFault};
use kern_token::Name;
use kern_tree::{Combine, Decl, DeclKind, Kind};
use std::alloc::{AllocError, Global};

/// The declaration of the name. A kernel has at most 512 nodes, so a walk is fast enough.
pub fn declaration<'k>(decls: &'k [Decl], name: &[u8]) -> Option<&'k Decl>
    ensures { option_copied result ≡ meanings.declaration decls.now name.now }
{
    decls.iter().find(|decl| decl.name.as_bytes() == name)
}

/// Checks declarations in the order in which they are written, and then that `acc` is declared.
pub(crate) fn check_decls(decls: &[Decl]) -> Result<(), TypeFault>
    ensures { result ≡ rules.all_decls_check decls.now }
{
    for (i, decl) in decls.iter().enumerate() {
        check_decl(&decls[..i], decl)?;
    }
    check_acc(decls)
}

fn check_decl(earlier: &[Decl], decl: &Decl) -> Result<(), TypeFault>
    ensures { result ≡ rules.decl_check earlier.now decl.now }
{
    if declaration(earlier, decl.name.as_bytes()).is_some() {
        return Err(TypeFault::Twice(decl.place));
    }
    check_what(decl.place, &decl.what)
}

fn check_what(place: u32, what: &DeclKind) -> Result<(), TypeFault>
    ensures { result ≡ rules.what_check place what.now }
{
    match what {
        DeclKind::Epi(kind, scale, field) => {
            check_field(place, *kind, *scale, particle_field(field))
        }
        DeclKind::Epj(kind, scale, field) => {
            check_field(place, *kind, *scale, item_field(field))
        }
        DeclKind::Force(kind, _, combine) => check_force(place, *kind, *combine),
        DeclKind::Param(_, _) => Ok(()),
    }
}

// The field is none where there is none for the side that is declared.
fn check_field(place: u32, kind: Kind, scale: u32, field: Option<Field>) -> Result<(), TypeFault>
    ensures { result ≡ rules.field_check place kind scale field }
{
    let Some(field) = field else {
        return Err(TypeFault::Unknown(place));
    };
    if field.kind != kind {
        return Err(TypeFault::Kind(place));
    }
    match field.scale {
        Some(own) if own != scale => Err(TypeFault::Scale(place)),
        _ => Ok(()),
    }
}

// A vec can only be summed.
fn check_force(place: u32, kind: Kind, combine: Combine) -> Result<(), TypeFault>
    ensures { result ≡ rules.force_check place kind combine }
{
    match (kind, combine) {
        (Kind::Vec3, Combine::Max | Combine::Min) => Err(TypeFault::Kind(place)),
        (Kind::Num, _) | (Kind::Vec3, Combine::Sum) => Ok(()),
    }
}

fn check_acc(decls: &[Decl]) -> Result<(), TypeFault>
    ensures { result ≡ rules.acc_check (meanings.declaration decls.now (codes "acc")) }
{
    match declaration(decls, b"acc") {
        None => Err(TypeFault::NoAcc(0)),
        Some(decl) => match decl.what {
            DeclKind::Force(Kind::Vec3, 16, Combine::Sum) => Ok(()),
            _ => Err(TypeFault::NoAcc(decl.place)),
        },
    }
}

/// The FORCE variables in order of declaration.
pub(crate) fn forces_of(alloc: Global, decls: &[Decl]) -> Result<Vec<ForceVar>, AllocError>
    ensures { IfOk result (λ forces. forces.items ≡ rules.forces_of decls.now) }
{
    let mut forces = Vec::new(alloc);
    for decl in decls {
        if let DeclKind::Force(kind, scale, combine) = decl.what {
            forces.push(ForceVar {
                name: decl.name.clone()?,
                kind,
                scale,
                combine,
            })?;
        }
    }
    Ok(forces)
}
