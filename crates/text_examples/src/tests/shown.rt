use kern_token::Name;
use kern_tree::{Act, Decl, DeclKind, Expr, Form, Stmt};
use std::alloc::{AllocError, Global};
use std::str;

/// The declarations, each after its place.
pub(super) fn shown_decls(alloc: Global, decls: &[Decl]) -> Result<String, AllocError> {
    let mut text = String::new(alloc);
    for decl in decls {
        text.push_str(shown_decl(alloc, decl)?.as_str())?;
    }
    Ok(text)
}

fn shown_decl(alloc: Global, decl: &Decl) -> Result<String, AllocError> {
    let place = decl.place;
    let name = text_of(&decl.name);
    match &decl.what {
        DeclKind::Epi(kind, scale, field) => {
            format!(in alloc; "{place}:Epi {name} {kind:?} {scale} {}; ", text_of(field))
        }
        DeclKind::Epj(kind, scale, field) => {
            format!(in alloc; "{place}:Epj {name} {kind:?} {scale} {}; ", text_of(field))
        }
        DeclKind::Force(kind, scale, combine) => {
            format!(in alloc; "{place}:Force {name} {kind:?} {scale} {combine:?}; ")
        }
        DeclKind::Param(scale, value) => format!(in alloc;
            "{place}:Param {name} {scale} {value}; "
        ),
    }
}

/// The statements with all brackets, each node after its place. What is nested deeper than the
/// levels is left out.
pub(super) fn shown(alloc: Global, levels: u32, stmts: &[Stmt]) -> Result<String, AllocError> {
    let mut text = String::new(alloc);
    if levels == 0 {
        return Ok(text);
    }
    for stmt in stmts {
        let place = stmt.place;
        let line = match &stmt.act {
            Act::Set(name, e) => {
                let value = shown_expr(alloc, 99, e)?;
                format!(in alloc; "{place}:{} = {value}; ", text_of(name))?
            }
            Act::Give(name, e) => {
                let value = shown_expr(alloc, 99, e)?;
                format!(in alloc; "{place}:{} += {value}; ", text_of(name))?
            }
            Act::If(e, body, others) => {
                let condition = shown_expr(alloc, 99, e)?;
                let body = shown(alloc, levels - 1, body.as_slice())?;
                let others = shown(alloc, levels - 1, others.as_slice())?;
                format!(in alloc; "{place}:if {condition} {{{body}}} {{{others}}} ")?
            }
        };
        text.push_str(line.as_str())?;
    }
    Ok(text)
}

fn shown_expr(alloc: Global, levels: u32, e: &Expr) -> Result<String, AllocError> {
    let place = e.place;
    if levels == 0 {
        return String::from_str(alloc, "..");
    }
    match &e.form {
        Form::Number(number, scale) => format!(in alloc; "{place}:{number}S{scale}"),
        Form::Name(name) => format!(in alloc; "{place}:{}", text_of(name)),
        Form::Part(a, axis) => {
            let a = shown_expr(alloc, levels - 1, a.get())?;
            format!(in alloc; "{place}:({a}.{axis:?})")
        }
        Form::One(op, a) => {
            let a = shown_expr(alloc, levels - 1, a.get())?;
            format!(in alloc; "{place}:{op:?}({a})")
        }
        Form::Two(op, a, b) => {
            let a = shown_expr(alloc, levels - 1, a.get())?;
            let b = shown_expr(alloc, levels - 1, b.get())?;
            format!(in alloc; "{place}:({a} {op:?} {b})")
        }
        Form::Three(op, a, b, c) => {
            let a = shown_expr(alloc, levels - 1, a.get())?;
            let b = shown_expr(alloc, levels - 1, b.get())?;
            let c = shown_expr(alloc, levels - 1, c.get())?;
            format!(in alloc; "{place}:{op:?}({a}, {b}, {c})")
        }
        Form::To(scale, a) => {
            let a = shown_expr(alloc, levels - 1, a.get())?;
            format!(in alloc; "{place}:To({scale}, {a})")
        }
    }
}

/// The name, whose bytes are letters.
pub(super) fn text_of(name: &Name) -> &str {
    text(name.as_bytes())
}

pub(super) fn text(bytes: &[u8]) -> &str {
    str::from_utf8(bytes).unwrap_or("?")
}
