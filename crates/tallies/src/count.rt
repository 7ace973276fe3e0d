// RULES 24.7 and 24.11: what an event adds to the counters.
ghost use Rattle.std.specs.Prelude.{◌*◌, ◌<◌, ◌≤◌, ◌≡◌, length};
ghost use Rattle.records.specs.Records.{ended_size};
ghost use Rattle.tallies.specs.Counters.{once_more, count_ends, count_entry, count_accepted, count_left, count_largest, count_event};

use crate::counters::{ACCEPTED_AT, Counters, ENTRY_AT, LARGEST_AT, LEFT_AT};
use numbers::Answered;
use octets::sizes::{ENDED_SIZE, STATUS_OFFSET};

// RULES 16.1 and 18.1: the kind of a command, and the answers that let it in and that end it at entry, in their bytes.
// Kept (docs/DESIGN-PASS.md, 1): the C interface; `Answered` has an answer's number, and an event record its kind's.
const COMMAND: u8 = 1;

const DONE: u8 = 0;

const ENDED_AT_ENTRY: u8 = 7;

#[tactic(auto, unfolding(crate::specs::Counters::once_more))]
fn once_more(counts: &mut Counters, k: usize)
    requires { k < length counts.old }
    ensures { counts.new ≡ once_more k counts.old }
{
    counts[k] = counts[k].saturating_add(1);
}

fn count_ends(counts: &mut Counters, report: &[u8], n: u8)
    requires { ended_size * n ≤ length report.now }
    ensures { counts.new ≡ count_ends n report.now counts.old }
{
    for ended in report.chunks_exact(ENDED_SIZE).take(n as usize) {
        once_more(counts, ended[STATUS_OFFSET] as usize);
    }
}

#[tactic(auto, unfolding(crate::specs::Counters::count_entry))]
fn count_entry(counts: &mut Counters, answer: u8, status: u8)
    ensures { counts.new ≡ count_entry answer status counts.old }
{
    if answer == ENDED_AT_ENTRY {
        once_more(counts, ENTRY_AT + status as usize);
    }
}

#[tactic(auto, unfolding(crate::specs::Counters::count_accepted))]
fn count_accepted(counts: &mut Counters, kind: u8, answer: u8)
    ensures { counts.new ≡ count_accepted kind answer counts.old }
{
    if kind == COMMAND && answer == DONE {
        once_more(counts, ACCEPTED_AT);
    }
}

#[tactic(auto, unfolding(crate::specs::Counters::count_left))]
fn count_left(counts: &mut Counters, tasks: u8)
    ensures { counts.new ≡ count_left tasks counts.old }
{
    counts[LEFT_AT] = tasks as u64;
}

#[tactic(auto, unfolding(crate::specs::Counters::count_largest))]
fn count_largest(counts: &mut Counters)
    ensures { counts.new ≡ count_largest counts.old }
{
    counts[LARGEST_AT] = counts[LARGEST_AT].max(counts[LEFT_AT]);
}

// An overlapped command ends others and is ended itself, so one event can add to both.
pub fn count_event(counts: &mut Counters, a: Answered, kind: u8, report: &[u8], tasks: u8)
    requires { ended_size * a.ended ≤ length report.now }
    ensures { counts.new ≡ count_event a kind report.now tasks counts.old }
{
    count_ends(counts, report, a.ended);
    count_entry(counts, a.answer, a.status);
    count_accepted(counts, kind, a.answer);
    count_left(counts, tasks);
    count_largest(counts);
}
