// RULES 1.3 and 20.1 to 20.5: what the C port driver calls: numbers and byte slices, whatever their lengths and whatever they hold. C calls them through
// dedakhumi_c, which exports them under these names.
#![tactic(auto)]

mod apply;
mod name;
mod start;

ghost use Rattle.numbers.specs.Boundary.{StartsAs, AppliesAs, NamesAs};

use crate::apply::apply;
use crate::name::name;
use crate::start::start;
use numbers::{Answered, NamedTurn};

pub fn dedakhumi_start(table: &mut [u8], policy: u8) -> u8
    ensures { StartsAs table.old policy result table.new }
{
    Answered::from(start(table, policy)).answer
}

pub fn dedakhumi_apply(table: &mut [u8], report: &mut [u8], event: &[u8]) -> Answered
    ensures { AppliesAs table.old report.old event.now result table.new report.new }
{
    apply(table, report, event).into()
}

pub fn dedakhumi_name(table: &[u8]) -> NamedTurn
    ensures { NamesAs table.now result }
{
    name(table).into()
}
