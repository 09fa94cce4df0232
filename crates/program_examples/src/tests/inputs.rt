// A kernel as long as it may be, and one byte longer.

use super::program::{Inputs, run};
use std::sync::Wait;
use std::test::Fail;
use std::thread::Threads;

// Whether a kernel of so many blanks is refused with this line.
fn blanks_are_refused(
    rt: &(impl Threads + Wait + Sync + AllocGlobal),
    count: u32,
    line: &str,
) -> Result<bool, Fail> {
    let mut kernel = String::new(rt.alloc());
    for _ in 0..count {
        kernel.push(' ')?;
    }
    let inputs = Inputs {
        settings: "",
        kernel: kernel.as_str(),
        particles: "particles 1\ncount 2\n1 0 0 0 0 0 0 1 0 0 0 0\n2 3 4 0 0 0 0 1 0 0 0 0\n",
    };
    Ok(run(rt, "run d", inputs)?.left(3, line, None))
}

#[test]
fn a_kernel_may_have_65536_bytes(rt: HostRuntime) -> Result<(), Fail> {
    assert!(rt; blanks_are_refused(&rt, 65_536, "fdps: types: NoAcc at 0\n")?);
    Ok(())
}

#[test]
fn a_kernel_may_not_have_65537_bytes(rt: HostRuntime) -> Result<(), Fail> {
    assert!(rt; blanks_are_refused(&rt, 65_537, "fdps: kernel: TooLarge\n")?);
    Ok(())
}
