// RULES 24.1, 24.3 and 24.4: event bytes played piece by piece, their lines put into a buffer.
ghost use Rattle.std.specs.Prelude.{◌+◌, ◌*◌, ◌≤◌, ◌≡◌, length};
ghost use Rattle.operations.specs.Operations.{outcome};
ghost use Rattle.records.specs.Events.{pieces};
ghost use Rattle.player.specs.Played.{played, OnePlayed, PlayedAs};

use dedakhumi::dedakhumi_apply;
use lines::Writer;
use octets::sizes::EVENT_SIZE;

// Kept (docs/DESIGN-PASS.md, 5): the speed, and `PlayedAs`, which speaks of tables and reports of any length. With both in a struct of arrays the player takes
// 1,191 instructions a record at 3 tasks, this 1,136.
fn play_one(table: &mut [u8], report: &mut [u8], event: &[u8], out: &mut Writer)
    requires { out.old.at + 20 ≤ length out.old.buffer.now }
    ensures one { OnePlayed (outcome table.old report.old event.now) out.old.buffer.now out.old.at table.new report.new out.new.buffer.now out.new.at }
    ensures same { out.new.buffer.ghost_name ≡ out.old.buffer.ghost_name }
{
    out.put_line(dedakhumi_apply(table, report, event));
}

// Only the last piece can be shorter than a record; that is apply's to refuse.
pub fn play(table: &mut [u8], report: &mut [u8], events: &[u8], buffer: &mut [u8]) -> usize
    requires { 20 * pieces (length events.now) ≤ length buffer.old }
    ensures { PlayedAs (played (pieces (length events.now)) table.old report.old events.now) table.new report.new buffer.new result }
{
    let mut out = Writer { buffer, at: 0 };
    for event in events.chunks(EVENT_SIZE) {
        play_one(table, report, event, &mut out);
    }
    out.at
}
