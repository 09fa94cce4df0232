// The laws of cell runs, each the contract of a function that does nothing when it runs. A caller whose proof
// needs a law calls its function.

ghost use Rattle.cell_runs.specs.RunLaws.{RunsHoldEachPlace, RunsRise};

/// Where cell runs follow one another, each place is one of some run.
pub fn runs_hold_each_place()
    ensures { RunsHoldEachPlace }
{}

/// Where cell runs follow one another, each ends before all later ones begin.
pub fn runs_rise()
    ensures { RunsRise }
{}
