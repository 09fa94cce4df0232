ghost use Rattle.std.specs.Prelude.{◌≡◌, IfOk};
ghost use Rattle.bench_input.specs.Kernel.{IsBenchKernel};

use crate::laws::bench_text_is_a_kernel;
use kern_parse::parse;
use kern_token::{KernFault, tokens};
use kern_types::{TypeFault, Typed, check, one_typing};
use pf_num::OutOfMemory;
use std::alloc::Global;

const TEXT: &[u8] = b"\
EPI vec S0 xi : pos;
EPJ vec S0 xj : pos;
EPJ num S0 mj : mass;
FORCE vec S16 acc sum;
PARAM S16 g = 72057594037927936;
PARAM S0 e = 1099511627776;
d = xj - xi;
r2 = d * d + e;
r = isqrt(r2);
acc += muldiv(muldiv(g, mj, r), d, r2);
";

/// The benchmark's kernel. Its text is never refused.
pub fn kernel(alloc: Global) -> Result<Typed, OutOfMemory>
    ensures { IfOk result IsBenchKernel }
{
    bench_text_is_a_kernel();
    one_typing();
    let tokens = match tokens(alloc, TEXT) {
        Ok(tokens) => tokens,
        Err(fault) => return Err(no_other_fault(fault)),
    };
    let kernel = match parse(alloc, &tokens) {
        Ok(kernel) => kernel,
        Err(fault) => return Err(no_other_fault(fault)),
    };
    match check(alloc, kernel) {
        Ok(typed) => Ok(typed),
        Err(fault) => Err(no_other_type_fault(fault)),
    }
}

fn no_other_fault(fault: KernFault) -> OutOfMemory
    requires { fault ≡ KernFault.Memory }
{
    match fault {
        KernFault::Memory => OutOfMemory,
        _ => unreachable!(),
    }
}

fn no_other_type_fault(fault: TypeFault) -> OutOfMemory
    requires { fault ≡ TypeFault.Memory }
{
    match fault {
        TypeFault::Memory => OutOfMemory,
        _ => unreachable!(),
    }
}
