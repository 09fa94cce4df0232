ghost use Rattle.std.specs.Prelude.{◌≡◌, ◌+◌, ◌<◌, ◌^◌, List, [], ◌++◌, length, ℕ};
ghost use Rattle.std.specs.List.{fold};
ghost use Rattle.run_model.specs.declared.step_text.RankLine.{RankLine};
ghost use Rattle.bench_summary.specs.Summary.{next_digest, tally_after, tally_of};

use crate::counts::{Counts, counts_in};
use run_model::RankLine;

/// What the steps of a run come to so far. Their texts are taken as they come, and none is kept.
#[derive(Clone, Copy, Debug, PartialEq, Eq)]
pub struct Tally {
    /// Of the last step.
    pub counts: Counts,
    /// The length of all texts together.
    pub bytes: u128,
    /// The digest of their bytes in order.
    pub digest: u64,
}

impl Tally {
    /// Before the first step.
    pub fn new() -> Tally
        ensures { result ≡ tally_of [] [] }
    {
        Tally {
            counts: counts_in(&[]),
            bytes: 0,
            digest: 0,
        }
    }

    /// Takes the text of the next step, and the lines of the ranks in it.
    pub fn take(&mut self, text: &[u8], lines: &[RankLine])
        requires { self.old.bytes + length text.now < 2 ^ 128 }
        ensures after { self.new ≡ tally_after self.old text.now lines.now }
        ensures so_far { (texts : List ℕ) (earlier : List RankLine) → self.old ≡ tally_of texts earlier
            → self.new ≡ tally_of (texts ++ text.now) lines.now }
    {
        self.counts = counts_in(lines);
        self.bytes += text.len() as u128;
        self.digest = digest_after(self.digest, text);
    }
}

// The digest after these bytes, of what has this digest before them.
fn digest_after(before: u64, bytes: &[u8]) -> u64
    ensures { result ≡ fold next_digest before bytes.now }
{
    let mut digest = before;
    for byte in bytes {
        digest = digest
            .wrapping_mul(1_099_511_628_211)
            .wrapping_add(u64::from(*byte) + 1);
    }
    digest
}
