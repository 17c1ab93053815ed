//! Parts of a suite, for several machines.
ghost use Rattle.std.specs.Prelude.{◌≤◌};

use crate::parts::part_of;

/// A part of a suite, of so many: from 1 to their count.
#[derive(Clone, Copy, Debug, PartialEq, Eq)]
pub struct Shard {
    pub part: u64,
    pub count: u64,
    ghost first: { 1 ≤ part },
    ghost last: { part ≤ count },
}

impl Shard {
    ghost use Rattle.std.specs.Prelude.{◌≡◌, ◌<◌, ◌^◌, ℕ, Some, IfSome, IsSomeAnd};
    ghost use Rattle.ext_selection.specs.Shards.{is_in, ReadsShard};

    /// Reads `K/N`: the part K of N, both in decimal digits, where 1 <= K <= N < 2 ^ 64. A plus sign
    /// and zeros may stand in front of each. Any other text gives `None`. An own rule.
    pub fn parse(text: &str) -> Option<Shard>
        ensures read { IfSome result (λ shard. ReadsShard text.now shard.part shard.count) }
        ensures only { (part count : ℕ) → ReadsShard text.now part count → 1 ≤ part → part ≤ count → count < 2 ^ 64 → IsSomeAnd result (λ shard. (shard.part ≡ part) × (shard.count ≡ count)) }
    {
        let (part, count) = text.split_once('/')?;
        let Ok(part) = part.parse::<u64>() else {
            return None;
        };
        let Ok(count) = count.parse::<u64>() else {
            return None;
        };
        if part < 1 || count < part {
            return None;
        }
        Some(Shard { part, count })
    }

    /// Whether the test whose id is written so is in this part. An own rule.
    pub fn has(&self, id: &str) -> bool
        ensures { result ≡ is_in (Some self.now) id.now }
    {
        part_of(id, self.count) == self.part
    }
}
