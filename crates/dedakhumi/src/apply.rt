// Apply one event.
ghost use Rattle.std.specs.Prelude.{◌≡◌, true, cond, ◌<◌, length, replicate};
ghost use Rattle.rules.specs.Tasks.{nexuses};
ghost use Rattle.values.specs.Headers.{lasting};
ghost use Rattle.rules.specs.Rulings.{ruled};
ghost use Rattle.rules.specs.Rules.{nexus_of, ruling};
ghost use Rattle.rules.specs.Well.{well_formed};
ghost use Rattle.records.specs.Tables.{state_of, good_table};
ghost use Rattle.operations.specs.AnswerNumbers.{writes_report};
ghost use Rattle.operations.specs.Operations.{carried, outcome, AppliedAs};

use carry::change::change;
use inspect::fits::table_fits;
use octets::sizes::{REPORT_SIZE, Report};
use records::events::event_of;
use records::header::header_in;
use report::zero_rest;
use ruling::rule::{nexus_of, rule};
use values::{Answer, Applied, Event, Header, NEXUS_BOUND, Ruling};

fn writes_report(a: Answer) -> bool
    ensures { result ≡ writes_report a }
{
    matches!(
        a,
        Answer::Done | Answer::EndedAtEntry(_, _) | Answer::Rejected
    )
}

fn zero_if(report: &mut Report, write: bool)
    ensures { report.new ≡ cond write (replicate (length report.old) 0) report.old }
{
    if write {
        zero_rest(report);
    }
}

fn carry_out(t: &mut [u8], report: &mut Report, h: Header, r: Ruling) -> Applied
    requires { (good_table t.old ≡ true) × (h ≡ (state_of t.old).header) × (well_formed (ruled (state_of t.old) r) ≡ true) × (lasting (ruled (state_of t.old) r).header ≡ lasting (state_of t.old).header) }
    ensures { AppliedAs (carried t.old report.old (state_of t.old) r) result t.new report.new }
{
    match r {
        Ruling::Keeps(a) => {
            zero_if(report, writes_report(a));
            Applied {
                answer: a,
                ended: 0,
            }
        }
        Ruling::Changes(a, c) => {
            let Some(table) = t.as_mut_array() else {
                unreachable!()
            };
            let ended = change(table, report, h.count as usize, h.aca, c);
            Applied {
                answer: a,
                ended: ended as u8,
            }
        }
    }
}

// Kept (docs/DESIGN-PASS.md, 5): the speed; with the table an array from `apply` on, an event takes 15 and 87 instructions more at 16 and 64 tasks.
fn on_event(t: &mut [u8], report: &mut Report, e: Event) -> Applied
    requires { (good_table t.old ≡ true) × (nexus_of e < nexuses) }
    ensures { AppliedAs (carried t.old report.old (state_of t.old) (ruling (state_of t.old) e)) result t.new report.new }
{
    let h = header_in(t);
    let Some(table) = t.as_array() else {
        unreachable!()
    };
    let r = rule(table, h, e);
    carry_out(t, report, h, r)
}

fn refuse(answer: Answer) -> Applied
    ensures { (result.answer ≡ answer) × (result.ended ≡ 0) }
{
    Applied { answer, ended: 0 }
}

// Whatever the bytes and however many.
pub fn apply(t: &mut [u8], report: &mut [u8], event: &[u8]) -> Applied
    ensures { AppliedAs (outcome t.old report.old event.now) result t.new report.new }
{
    if !table_fits(t) {
        return refuse(Answer::BadTable);
    }
    if report.len() != REPORT_SIZE {
        return refuse(Answer::BadReport);
    }
    let Some(e) = event_of(event) else {
        return refuse(Answer::BadEvent);
    };
    if NEXUS_BOUND <= nexus_of(e) {
        return refuse(Answer::NexusAboveSeven);
    }
    let Some(report) = report.as_mut_array() else {
        unreachable!()
    };
    on_event(t, report, e)
}
