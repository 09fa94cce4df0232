// The laws of moments, each the contract of a function that does nothing when it runs. A caller whose
// proof needs a law calls its function.

ghost use Rattle.model_laws.specs.MomentLaws.{MomentsAddUp, MomentsCancel, MomentsIgnoreOrder, MomentsKeepTheirLimits};
ghost use Rattle.model_laws.specs.MomentLaws.{SourcesKeepTheirLimits, MomentsJoinInAnyOrder, EntriesJoinTheirMoments};
ghost use Rattle.model_laws.specs.MomentLaws.{EntriesJoinInAnyOrder, JoinedMomentsKeepTheirLimits};

/// The moment of some particles and others is that of both together.
pub fn moments_add_up()
    ensures { MomentsAddUp }
{}

/// Moments that make the same together with another one are the same.
pub fn moments_cancel()
    ensures { MomentsCancel }
{}

/// The order of particles changes nothing in their moment.
pub fn moments_ignore_order()
    ensures { MomentsIgnoreOrder }
{}

/// The moment of few particles that keep their limits keeps its own.
pub fn moments_keep_their_limits()
    ensures { MomentsKeepTheirLimits }
{}

/// Two moments, of few enough particles together, keep their limits together.
pub fn joined_moments_keep_their_limits()
    ensures { JoinedMomentsKeepTheirLimits }
{}

/// The source that some particles are keeps its limits.
pub fn sources_keep_their_limits()
    ensures { SourcesKeepTheirLimits }
{}

/// Moments are joined in any order.
pub fn moments_join_in_any_order()
    ensures { MomentsJoinInAnyOrder }
{}

/// The moment of some entries and others is that of both together.
pub fn entries_join_their_moments()
    ensures { EntriesJoinTheirMoments }
{}

/// The order of entries changes nothing in their moment.
pub fn entries_join_in_any_order()
    ensures { EntriesJoinInAnyOrder }
{}
