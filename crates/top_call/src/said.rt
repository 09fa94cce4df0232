ghost use Rattle.std.specs.Prelude.{◌≡◌, IfOk, string_bytes};
ghost use Rattle.top_call.specs.Said.{axis_name, kind_name, line_of, lists_line};
ghost use Rattle.top_call.specs.Said.{numeric_line, refusal_line, store_line, what_line};

use crate::status::{Refusal, Status};
use command_frame::StoreCall;
use kern_meaning::PairKind;
use pf_geom::Axis;
use pf_num::OutOfMemory;
use run_model::What;
use std::alloc::{AllocError, Global};

/// The line that says how a command ended: empty where it was done.
pub fn said_line(alloc: Global, s: &Status) -> Result<Vec<u8>, OutOfMemory>
    ensures { IfOk result (λ v. v.items ≡ line_of s.now) }
{
    Ok(line(alloc, s)?.into_bytes())
}

fn line(alloc: Global, s: &Status) -> Result<String, AllocError>
    ensures { IfOk result (λ line. string_bytes line ≡ line_of s.now) }
{
    match s {
        Status::Done => Ok(String::new(alloc)),
        Status::Usage => String::from_str(
            alloc,
            "fdps: usage: fdps run DECK [--workers W] or fdps bench N SEED [--workers W]\n",
        ),
        Status::Refused(refusal) => refusal_line(alloc, refusal),
        Status::Numeric(step, fault) => numeric_line(alloc, *step, fault.id, fault.what),
        Status::Lists(step, count) => lists_line(alloc, *step, *count),
        Status::StoreFault(call) => String::from_str(alloc, store_line(*call)),
        Status::Memory => String::from_str(alloc, "fdps: out of memory\n"),
    }
}

fn refusal_line(alloc: Global, refusal: &Refusal) -> Result<String, AllocError>
    ensures { IfOk result (λ line. string_bytes line ≡ refusal_line refusal.now) }
{
    match refusal {
        Refusal::DeckTooLarge => String::from_str(alloc, "fdps: deck: TooLarge\n"),
        Refusal::Deck(fault) => format!(in alloc; "fdps: deck: {fault}\n"),
        Refusal::KernelTooLarge => String::from_str(alloc, "fdps: kernel: TooLarge\n"),
        Refusal::Kernel(fault) => format!(in alloc; "fdps: kernel: {fault}\n"),
        Refusal::Types(fault) => format!(in alloc; "fdps: types: {fault}\n"),
        Refusal::ParticlesTooLarge => String::from_str(alloc, "fdps: particles: TooLarge\n"),
        Refusal::Particles(fault) => format!(in alloc; "fdps: particles: {fault}\n"),
    }
}

fn numeric_line(alloc: Global, step: u32, id: u32, what: What) -> Result<String, AllocError>
    ensures { IfOk result (λ line. string_bytes line ≡ numeric_line step id what) }
{
    let mut line = format!(in alloc; "fdps: step {step} id {id}: ")?;
    let what = what_line(alloc, what)?;
    line.push_str(what.as_str())?;
    Ok(line)
}

fn lists_line(alloc: Global, step: u32, count: u64) -> Result<String, AllocError>
    ensures { IfOk result (λ line. string_bytes line ≡ lists_line step count) }
{
    let mut line = format!(in alloc; "fdps: step {step}: Lists ")?;
    let count = format!(in alloc; "{count}\n")?;
    line.push_str(count.as_str())?;
    Ok(line)
}

fn what_line(alloc: Global, what: What) -> Result<String, AllocError>
    ensures { IfOk result (λ line. string_bytes line ≡ what_line what) }
{
    match what {
        What::Pair(kind, statement) => {
            let kind = kind_name(kind);
            format!(in alloc; "{kind} in statement {statement}\n")
        }
        What::Sum(force) => format!(in alloc; "Overflow of force {force}\n"),
        What::Fast(axis) => {
            let axis = axis_name(axis);
            format!(in alloc; "Overflow on {axis}\n")
        }
        What::Escaped(axis) => {
            let axis = axis_name(axis);
            format!(in alloc; "Escaped on {axis}\n")
        }
    }
}

fn kind_name(kind: PairKind) -> &'static str
    ensures { result.now ≡ kind_name kind }
{
    match kind {
        PairKind::Overflow => "Overflow",
        PairKind::ZeroDivisor => "ZeroDivisor",
        PairKind::Coincident => "Coincident",
        PairKind::NegativeRoot => "NegativeRoot",
    }
}

fn axis_name(axis: Axis) -> &'static str
    ensures { result.now ≡ axis_name axis }
{
    match axis {
        Axis::X => "x",
        Axis::Y => "y",
        Axis::Z => "z",
    }
}

fn store_line(call: StoreCall) -> &'static str
    ensures { result.now ≡ store_line call }
{
    match call {
        StoreCall::Open => "fdps: store: open failed\n",
        StoreCall::Read => "fdps: store: read failed\n",
        StoreCall::Create => "fdps: store: create failed\n",
        StoreCall::Write => "fdps: store: write failed\n",
        StoreCall::Say => "fdps: store: say failed\n",
    }
}
