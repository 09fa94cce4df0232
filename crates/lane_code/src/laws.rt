ghost use Rattle.lane_code.specs.Laws.{EachIsFine};

/// Each instruction of a valid code keeps every rule, over those before it.
pub fn each_instruction_is_fine()
    ensures { EachIsFine }
{}
