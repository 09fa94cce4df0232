// The laws of the other ranks, each the contract of a function that does nothing when it runs. A caller whose
// proof needs a law calls its function.

ghost use Rattle.let_inbox.specs.Laws.{OthersAscend, OthersAreTheSources, OthersStandInTurn, OthersGrow};
ghost use Rattle.let_inbox.specs.Laws.{OthersAreFew};

/// The other ranks stand by ascending number.
pub fn others_ascend()
    ensures { OthersAscend }
{}

/// They are the sources, each once.
pub fn others_are_the_sources()
    ensures { OthersAreTheSources }
{}

/// The first rank is one of them, if it isn't the own one, and the rest follow.
pub fn others_stand_in_turn()
    ensures { OthersStandInTurn }
{}

/// With one rank more there is one more of them, unless that is the own one.
pub fn others_grow()
    ensures { OthersGrow }
{}

/// They are no more than the ranks.
pub fn others_are_few()
    ensures { OthersAreFew }
{}
