ghost use Rattle.std.specs.Prelude.{◌≡◌};
ghost use Rattle.kern_tree.specs.declared.kernel.Kernel.{Kernel};
ghost use Rattle.bench_input.specs.Kernel.{IsBenchKernel};

use kern_token::{one_reading, stopped_pieces};
use kern_tree::{one_answer, trees_by_form};

/// The benchmark's text is a well-typed kernel.
pub fn bench_text_is_a_kernel()
    ensures { (kernel : Kernel) × IsBenchKernel kernel }
{
    stopped_pieces();
    trees_by_form();
}

/// The benchmark has one kernel.
pub fn bench_kernels_are_one()
    ensures { (a b : Kernel) → IsBenchKernel a → IsBenchKernel b → a ≡ b }
{
    one_reading();
    one_answer();
}
