// Name the task whose turn it is.
ghost use Rattle.std.specs.Prelude.{◌≡◌, true};
ghost use Rattle.rules.specs.Rulings.{turn};
ghost use Rattle.records.specs.Tables.{state_of, good_table};
ghost use Rattle.operations.specs.Operations.{named};

use find::turn_in;
use inspect::fits::table_fits;
use records::header::header_in;
use values::{Answer, Named, Naming};

fn turn_of_table(t: &[u8]) -> Option<Named>
    requires { good_table t.now ≡ true }
    ensures { result ≡ turn (state_of t.now) }
{
    let h = header_in(t);
    turn_in(t, h.count as usize, h.aca, h.run)
}

// Whatever the bytes and however many.
pub fn name(t: &[u8]) -> Naming
    ensures { result ≡ named t.now }
{
    if !table_fits(t) {
        return Naming {
            answer: Answer::BadTable,
            turn: None,
        };
    }
    Naming {
        answer: Answer::Done,
        turn: turn_of_table(t),
    }
}
