// The laws of the elements of a list, and of what is made of each, each the contract of a function that does nothing when it
// runs. A caller whose proof needs a law calls its function.

ghost use Rattle.order_laws.specs.OrderLaws.{PartsByKeyAreAll, TestsKeepWhatPasses, TestsKeepPermutations};
ghost use Rattle.order_laws.specs.OrderLaws.{PartsKeepPermutations, TestsKeepSpans};
ghost use Rattle.order_laws.specs.OrderLaws.{DifferentInAnyOrder, DifferentAreFew};

/// Elements that are dealt out by a key are all of them.
pub fn parts_by_key_are_all<X>()
    ensures { PartsByKeyAreAll X }
{}

/// What a test keeps are the elements that pass it.
pub fn tests_keep_what_passes<X>()
    ensures { TestsKeepWhatPasses X }
{}

/// What a test keeps of elements in another order is the same, in another order.
pub fn tests_keep_permutations<X>()
    ensures { TestsKeepPermutations X }
{}

/// So are the parts that are made of each element, in whatever order each is made.
pub fn parts_keep_permutations<X, Y>()
    ensures { PartsKeepPermutations X Y }
{}

/// Where a test passes just at so many places in turn, it keeps what stands there.
pub fn tests_keep_spans<X>()
    ensures { TestsKeepSpans X }
{}

/// Elements that differ do so in every order.
pub fn different_in_any_order<X>()
    ensures { DifferentInAnyOrder X }
{}

/// Elements of a list that differ are no more than it has.
pub fn different_are_few<X>()
    ensures { DifferentAreFew X }
{}
