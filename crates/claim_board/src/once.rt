// The law of lists with each number once, the contract of a function that does nothing when it runs. A caller whose
// proof needs the law calls its function.

ghost use Rattle.claim_board.specs.Once.{NumbersOnceStandInSomeOrder};

/// A list that has each number below a bound once, and no other, is these numbers in some order.
pub fn numbers_once_stand_in_some_order()
    ensures { NumbersOnceStandInSomeOrder }
{}
