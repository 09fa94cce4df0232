// The laws of the core, over every list of events, each the contract of a function that does nothing when it runs. A
// caller whose proof needs a law calls its function.

ghost use Rattle.step_core.specs.Laws.{HeldGroupsHaveTheirLists, EndsFinishEachGroupOnce, RunsAreShort};
ghost use Rattle.step_core.specs.Laws.{EndsHaveWholeLists, EndsAreAlike, RunsGoOn};

use model_laws::all_ranks_have_all;

/// A legal list of events goes on by events that are legal one after another from the state that it leaves.
pub fn runs_go_on()
    ensures { RunsGoOn }
{}

/// While a worker holds a group, as at each Finish, the group's partial list is its list over all particles.
pub fn held_groups_have_their_lists()
    ensures { HeldGroupsHaveTheirLists }
{
    all_ranks_have_all();
}

/// Where no event is legal any more, every group is finished, once.
pub fn ends_finish_each_group_once()
    ensures { EndsFinishEachGroupOnce }
{}

/// A legal list of events has at most two for each pair of different ranks, and two for each group.
pub fn runs_are_short()
    ensures { RunsAreShort }
{}

/// Where no event is legal any more, each group's partial list is its list over all particles.
pub fn ends_have_whole_lists()
    ensures { EndsHaveWholeLists }
{
    all_ranks_have_all();
}

/// Any two legal lists of events that can't go on end with the same lists for every group.
pub fn ends_are_alike()
    ensures { EndsAreAlike }
{
    ends_have_whole_lists();
}
