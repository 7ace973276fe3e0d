// RULES 24.6 and 24.7: records played and counted. The covered function on slice and offset that the log reader stands on.
ghost use Rattle.std.specs.Prelude.{◌≤◌, ◌≡◌, length};
ghost use Rattle.records.specs.Records.{event_size};
ghost use Rattle.logs.specs.Walking.{count_piece, StoodAt};

use dedakhumi::dedakhumi_apply;
use octets::sizes::{COUNT_OFFSET, EVENT_SIZE, KIND_OFFSET, REPORT_SIZE, TABLE_SIZE};
use tallies::count::count_event;
use tallies::counters::Counters;

// What a log has come to so far.
#[derive(Drop)]
pub struct Standing {
    pub table: [u8; TABLE_SIZE],
    pub report: [u8; REPORT_SIZE],
    pub counts: Counters,
}

impl Standing {
    fn play_one(&mut self, event: &[u8])
        requires { length event.now ≡ event_size }
        ensures { self.new ≡ count_piece self.old event.now }
    {
        let a = dedakhumi_apply(&mut self.table, &mut self.report, event);
        count_event(
            &mut self.counts,
            a,
            event[KIND_OFFSET],
            &self.report,
            self.table[COUNT_OFFSET],
        );
    }
}

// Plays the whole records from `at` on, and says where the next piece begins, which is shorter than a record.
pub fn play_from(stretch: &[u8], at: usize, standing: &mut Standing) -> usize
    requires { at ≤ length stretch.now }
    ensures { StoodAt stretch.now at standing.old standing.new result }
{
    for event in stretch[at..].chunks_exact(EVENT_SIZE) {
        standing.play_one(event);
    }
    stretch.len() - (stretch.len() - at) % EVENT_SIZE
}
