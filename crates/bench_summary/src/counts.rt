ghost use Rattle.std.specs.Prelude.{◌≡◌};
ghost use Rattle.bench_summary.specs.Summary.{counts_in};

use run_model::RankLine;

/// What the rank lines of a step come to. The sums have 128 bits, since lines of any number have them.
#[derive(Clone, Copy, Debug, PartialEq, Eq)]
pub struct Counts {
    pub groups: u128,
    /// The cells in the interaction lists of these groups, each list by itself.
    pub listcells: u128,
    /// The particles in these lists.
    pub listparts: u128,
}

/// The sums over these lines.
pub(crate) fn counts_in(lines: &[RankLine]) -> Counts
    ensures { result ≡ counts_in lines.now }
{
    let mut counts = Counts {
        groups: 0,
        listcells: 0,
        listparts: 0,
    };
    for line in lines {
        let RankLine {
            groups,
            listcells,
            listparts,
            ..
        } = *line;
        counts.groups += u128::from(groups);
        counts.listcells += u128::from(listcells);
        counts.listparts += u128::from(listparts);
    }
    counts
}
