ghost use Rattle.kern_types.specs.OneTyping.{SomeTyping, OneTyping, OneTypeFault};
ghost use Rattle.kern_types.specs.TypingLaws as laws;

use kern_tree::parsed_kernels_keep_limits;

/// A kernel is well typed, or has a first fault, and not both.
pub fn one_typing()
    ensures some { SomeTyping }
    ensures not_both { OneTyping }
    ensures one_fault { OneTypeFault }
{}

/// A kernel that parsing can give has at most `MOST_NODES` FORCE variables and contributions together.
pub fn forces_and_slots_are_few()
    ensures { laws.ForcesAndSlotsAreFew }
{
    parsed_kernels_keep_limits();
}

/// The names that a typed kernel declares are distinct, and each declaration fits its field.
pub fn declarations_fit()
    ensures once { laws.NamesAreDeclaredOnce }
    ensures fit { laws.DeclarationsFit }
{}

/// The assignments before a place are among those before each later one.
pub fn scopes_only_grow()
    ensures statements { laws.ScopesOnlyGrow }
    ensures order { laws.GrowthIsAnOrder }
{}

/// What is assigned has a kind and a scale, and its name is not declared.
pub fn assignments_fit()
    ensures { laws.AssignmentsFit }
{}

/// A name is certain exactly where every path through the `if`s assigns it.
pub fn certain_is_on_every_path()
    ensures statements { laws.CertainIsOnEveryPath }
    ensures end { laws.CertainAtTheEnd }
{
    parsed_kernels_keep_limits();
}

/// All assignments to a name are of one kind and one scale.
pub fn names_keep_their_type()
    ensures { laws.NamesKeepTheirType }
{
    parsed_kernels_keep_limits();
}

/// The scales of expressions and of assigned names are at most `MOST_SCALE`.
pub fn scales_fit()
    ensures expressions { laws.ExpressionScalesFit }
    ensures assigned { laws.AssignedScalesFit }
{
    parsed_kernels_keep_limits();
}

/// What is given to a FORCE variable is of its kind and scale.
pub fn contributions_fit()
    ensures { laws.ContributionsFit }
{}

/// The target of each slot is a FORCE variable.
pub fn slots_have_forces()
    ensures { laws.SlotsHaveForces }
{
    parsed_kernels_keep_limits();
}
