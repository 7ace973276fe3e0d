// Start a fresh table.
ghost use Rattle.std.specs.Prelude.{◌≡◌};
ghost use Rattle.rules.specs.Rulings.{fresh};
ghost use Rattle.records.specs.Numbers.{policy_from};
ghost use Rattle.records.specs.Tables.{table_bytes};
ghost use Rattle.operations.specs.Operations.{started, StartedAs};
ghost use Rattle.dedakhumi.specs.FreshTable.{fresh_nexuses};

use close::vacate;
use decide::pending::after_power_on;
use octets::records::put_record;
use octets::sizes::{NEXUS_SIZE, NEXUSES_AT, Table};
use records::header::{header_bytes, policy_fits, policy_from};
use records::nexus::nexus_bytes;
use values::{Answer, Header, NEXUSES, PLACES};

fn write_nexuses(t: &mut Table)
    ensures { t.new ≡ fresh_nexuses t.old }
{
    for i in 0..NEXUSES {
        put_record(
            t,
            NEXUSES_AT + NEXUS_SIZE * i,
            nexus_bytes(i as u8, after_power_on()),
        );
    }
}

fn write_fresh(t: &mut Table, policy: u8)
    ensures { t.new ≡ table_bytes (fresh (policy_from policy)) }
{
    let h = Header::fresh(policy_from(policy));
    put_record(t, 0, header_bytes(h));
    write_nexuses(t);
    vacate(t, 0, PLACES);
}

// Whatever the bytes and however many.
pub fn start(t: &mut [u8], policy: u8) -> Answer
    ensures { StartedAs (started t.old policy) result t.new }
{
    let Some(table) = t.as_mut_array() else {
        return Answer::BadTable;
    };
    if !policy_fits(policy) {
        return Answer::BadPolicy;
    }
    write_fresh(table, policy);
    Answer::Done
}
