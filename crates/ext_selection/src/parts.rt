//! In which part of a suite a test stands.
ghost use Rattle.std.specs.Prelude.{◌≡◌, ◌≤◌, ◌↔◌, IsTrue, Some};
ghost use Rattle.ext_selection.specs.Shards.{part_in, is_in};
ghost use Rattle.ext_selection.specs.declared.shards.Shard.{Shard};

use crate::hashing::text_number;

/// The part, from 1, of so many, in which the test stands whose id is written so. Each test is in
/// exactly one of the parts of a suite, which its id alone tells: it is the same on each machine, and
/// stays so when tests are added. An own rule.
pub fn part_of(id: &str, count: u64) -> u64
    requires { 1 ≤ count }
    ensures part { result ≡ part_in count id.now }
    ensures first { 1 ≤ result }
    ensures last { result ≤ count }
    ensures only { (shard : Shard) → shard.count ≡ count → (IsTrue (is_in (Some shard) id.now)) ↔ (shard.part ≡ result) }
{
    text_number(b"", id) % count + 1
}
