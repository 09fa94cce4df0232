ghost use Rattle.std.specs.Prelude.{◌≡◌, length};

use group_lists::{HasLists, Lists};
use run_model::RankLine;

/// The lists of a rank's groups, and what the text of a step tells of the rank.
#[derive(Drop)]
pub struct RankLists {
    pub lists: Lists,
    pub line: RankLine,
    ghost told: { line.groups ≡ length lists.groups },
}

impl HasLists for RankLists {
    ghost has = { λ r. r.lists.groups };

    fn lists(&self) -> &Lists {
        &self.lists
    }
}
