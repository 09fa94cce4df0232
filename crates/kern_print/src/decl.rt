ghost use Rattle.std.specs.Prelude.{◌≡◌, ◌++◌, OnOk};
ghost use Rattle.std.specs.List.{flat_map};
ghost use Rattle.kern_print.specs.Canonical.{kind_text, combine_text, typed_name, declared_text, decl_text};

use crate::pushing::{push_number, push_signed, push_text};
use kern_token::Name;
use kern_tree::{Combine, Decl, DeclKind, Kind};
use pf_num::OutOfMemory;

pub(crate) fn push_decls(out: &mut Vec<u8>, decls: &[Decl]) -> Result<(), OutOfMemory>
    ensures { OnOk result (out.new.items ≡ out.old.items ++ flat_map decl_text decls.now) }
{
    for decl in decls {
        push_decl(out, decl)?;
    }
    Ok(())
}

fn push_decl(out: &mut Vec<u8>, decl: &Decl) -> Result<(), OutOfMemory>
    ensures { OnOk result (out.new.items ≡ out.old.items ++ decl_text decl.now) }
{
    push_declared(out, &decl.what, &decl.name)?;
    push_text(out, b";\n")
}

fn push_declared(out: &mut Vec<u8>, what: &DeclKind, name: &Name) -> Result<(), OutOfMemory>
    ensures { OnOk result (out.new.items ≡ out.old.items ++ declared_text what.now name.now) }
{
    match what {
        DeclKind::Epi(kind, scale, field) => {
            push_text(out, b"EPI ")?;
            push_typed_name(out, *kind, *scale, name)?;
            push_text(out, b" : ")?;
            push_text(out, field.as_bytes())
        }
        DeclKind::Epj(kind, scale, field) => {
            push_text(out, b"EPJ ")?;
            push_typed_name(out, *kind, *scale, name)?;
            push_text(out, b" : ")?;
            push_text(out, field.as_bytes())
        }
        DeclKind::Force(kind, scale, combine) => {
            push_text(out, b"FORCE ")?;
            push_typed_name(out, *kind, *scale, name)?;
            push_text(out, b" ")?;
            push_text(out, combine_bytes(*combine))
        }
        DeclKind::Param(scale, value) => {
            push_text(out, b"PARAM S")?;
            push_number(out, u64::from(*scale))?;
            push_text(out, b" ")?;
            push_text(out, name.as_bytes())?;
            push_text(out, b" = ")?;
            push_signed(out, *value)
        }
    }
}

fn push_typed_name(
    out: &mut Vec<u8>,
    kind: Kind,
    scale: u32,
    name: &Name,
) -> Result<(), OutOfMemory>
    ensures { OnOk result (out.new.items ≡ out.old.items ++ typed_name kind scale name.now) }
{
    push_text(out, kind_bytes(kind))?;
    push_text(out, b" S")?;
    push_number(out, u64::from(scale))?;
    push_text(out, b" ")?;
    push_text(out, name.as_bytes())
}

fn kind_bytes(kind: Kind) -> &'static [u8]
    ensures { result.now ≡ kind_text kind }
{
    match kind {
        Kind::Num => b"num",
        Kind::Vec3 => b"vec",
    }
}

fn combine_bytes(combine: Combine) -> &'static [u8]
    ensures { result.now ≡ combine_text combine }
{
    match combine {
        Combine::Sum => b"sum",
        Combine::Max => b"max",
        Combine::Min => b"min",
    }
}
