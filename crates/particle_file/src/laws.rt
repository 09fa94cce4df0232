ghost use Rattle.particle_file.specs.Laws.{FaultsAreFirst, WhatIsSpelledIsRead, WhatIsReadIsSpelled, WhatIsSpelledIsPlain, PrintedParticlesReadBack};

use text_lines::{numbers_are_found, numbers_read_back, written_lines_read_back};

/// Every text has one reading: it spells one list of particles, or has a first fault.
pub fn reading_is_spelling()
    ensures spelled { WhatIsSpelledIsRead }
    ensures read { WhatIsReadIsSpelled }
    ensures plain { WhatIsSpelledIsPlain }
    ensures first { FaultsAreFirst }
{
    numbers_are_found();
}

/// Reading the text of particles whose c4 to c7 are 0 gives them again.
pub fn printed_particles_read_back()
    ensures { PrintedParticlesReadBack }
{
    reading_is_spelling();
    written_lines_read_back();
    numbers_read_back();
}
