// RULES 24.10: logs together: sums, but the largest of the largest.
ghost use Rattle.std.specs.Prelude.{◌≡◌};
ghost use Rattle.tallies.specs.Counters.{both_at, add_counters};

use crate::counters::{Counters, LARGEST_AT};

fn both(k: usize, a: u64, b: u64) -> u64
    ensures { result ≡ both_at k a b }
{
    if k == LARGEST_AT {
        a.max(b)
    } else {
        a.saturating_add(b)
    }
}

pub fn add_log(all: &mut Counters, one: &Counters)
    ensures { all.new ≡ add_counters 0 all.old one.now }
{
    for (k, &count) in one.iter().enumerate() {
        all[k] = both(k, all[k], count);
    }
}
