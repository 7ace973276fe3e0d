// A ruling carried out on the lent bytes.
ghost use Rattle.std.specs.Prelude.{◌≡◌, ◌+◌, ◌≤◌, length, drop};
ghost use Rattle.octets.specs.Sizes.{head_size, tasks_at};
ghost use Rattle.rules.specs.Tasks.{places};
ghost use Rattle.rules.specs.Rulings.{newcomers};
ghost use Rattle.laws.specs.RecordsInLists.{put_at};
ghost use Rattle.records.specs.Records.{header_bytes};
ghost use Rattle.steps.specs.Steps.{losers};
ghost use Rattle.carry.specs.Carrying.{noted_unless_quiet, joined_bytes, HeaderKept};
ghost use Rattle.carry.specs.Changes.{ChangeFits, ChangedAs};

use close::close_up;
use note::note;
use octets::records::put_record;
use octets::sizes::{ACA_OFFSET, COUNT_OFFSET, RUN_OFFSET, Report, TASK_SIZE, TASKS_AT, Table};
use records::header::aca_number;
use records::tasks::task_bytes;
use report::write_report;
use restate::restate;
use values::{Change, Header, Notice, Sweep, Task};

fn note_if(t: &mut Table, n: usize, w: Sweep, k: Notice)
    requires { n ≤ places }
    ensures { t.new ≡ noted_unless_quiet k (losers w n (drop tasks_at t.old)) t.old }
{
    if k != Notice::Quiet {
        note(t, n, w, k);
    }
}

// How many tasks there are then.
fn join(t: &mut Table, k: usize, j: Option<Task>) -> usize
    requires { k + length (newcomers j) ≤ places }
    ensures { (result ≡ k + length (newcomers j)) × (t.new ≡ joined_bytes j k t.old) }
{
    match j {
        None => k,
        Some(x) => {
            put_record(t, TASKS_AT + TASK_SIZE * k, task_bytes(x));
            k + 1
        }
    }
}

// What lasts and the marks stand there already.
fn put_header(t: &mut Table, h: Header)
    requires { HeaderKept t.old h }
    ensures { t.new ≡ put_at head_size t.old 0 (header_bytes h) }
{
    t[COUNT_OFFSET] = h.count;
    t[ACA_OFFSET] = aca_number(h.aca);
    t[RUN_OFFSET] = h.run;
}

// How many tasks ended.
pub fn change(t: &mut Table, report: &mut Report, n: usize, before: Option<u8>, c: Change) -> usize
    requires { ChangeFits t.old n before c }
    ensures { ChangedAs t.old c t.new report.new result }
{
    let ended = write_report(t, n, c.sweep, report);
    note_if(t, n, c.sweep, c.notice);
    let stay = close_up(t, n, c.sweep);
    let m = join(t, stay, c.joins);
    restate(t, m, before, c.header.aca);
    put_header(t, c.header.with_count(m as u8));
    ended
}
