// RULES 1.3 and 20.1 to 20.5: the three operations as C links them, in the archive of include/dedakhumi.h. A crate is a library or an archive, so this one only
// passes on what the library dedakhumi does, with its clauses.
#![tactic(auto)]

ghost use Rattle.numbers.specs.Boundary.{StartsAs, AppliesAs, NamesAs};

use numbers::{Answered, NamedTurn};

#[unsafe(no_mangle)]
pub extern "C" fn dedakhumi_start(table: &mut [u8], policy: u8) -> u8
    ensures { StartsAs table.old policy result table.new }
{
    dedakhumi::dedakhumi_start(table, policy)
}

#[unsafe(no_mangle)]
pub extern "C" fn dedakhumi_apply(table: &mut [u8], report: &mut [u8], event: &[u8]) -> Answered
    ensures { AppliesAs table.old report.old event.now result table.new report.new }
{
    dedakhumi::dedakhumi_apply(table, report, event)
}

#[unsafe(no_mangle)]
pub extern "C" fn dedakhumi_name(table: &[u8]) -> NamedTurn
    ensures { NamesAs table.now result }
{
    dedakhumi::dedakhumi_name(table)
}
