ghost use Rattle.std.specs.Prelude.{◌≡◌, ◌++◌, decimal, IfOk, OnOk};
ghost use Rattle.bench_summary.specs.Summary.{number_line, summary_text};

use crate::tally::Tally;
use itoa::Buffer;
use pf_num::OutOfMemory;
use std::alloc::Global;

/// The six lines of the summary, for so many particles from this seed.
pub fn summary(alloc: Global, count: u32, seed: u64, tally: &Tally) -> Result<Vec<u8>, OutOfMemory>
    ensures { IfOk result (λ text. text.items ≡ summary_text count seed tally.now) }
{
    let mut out = Vec::new(alloc);
    push_labelled(&mut out, b"bench particles ", u128::from(count))?;
    push_line(&mut out, b" seed ", u128::from(seed))?;
    push_line(&mut out, b"groups ", tally.counts.groups)?;
    push_line(&mut out, b"listcells ", tally.counts.listcells)?;
    push_line(&mut out, b"listparts ", tally.counts.listparts)?;
    push_line(&mut out, b"bytes ", tally.bytes)?;
    push_line(&mut out, b"digest ", u128::from(tally.digest))?;
    Ok(out)
}

// The label, the number after it, and the end of the line.
fn push_line(out: &mut Vec<u8>, label: &[u8], number: u128) -> Result<(), OutOfMemory>
    ensures { OnOk result (out.new.items ≡ out.old.items ++ number_line label.now number) }
{
    push_labelled(out, label, number)?;
    out.push(b'\n')?;
    Ok(())
}

fn push_labelled(out: &mut Vec<u8>, label: &[u8], number: u128) -> Result<(), OutOfMemory>
    ensures { OnOk result (out.new.items ≡ out.old.items ++ (label.now ++ decimal number)) }
{
    out.extend_from_slice(label)?;
    let mut buffer = Buffer::new();
    out.extend_from_slice(buffer.format(number).as_bytes())?;
    Ok(())
}
