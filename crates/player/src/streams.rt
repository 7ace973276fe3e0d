// RULES 24.5: standard input, and the line on standard error where it fails: a read that failed is said before the lines of what came until then.
ghost use Rattle.io.specs.Counts.{IsPrefixLen};

use host::fail;
use octets::sizes::EVENT_SIZE;
use std::io::Read;

// Fills the buffer. A read may return in the middle of a record; one that brings nothing is the end of the input, and is not repeated: a terminal
// would ask for the end a second time. A read that fails is not the end, so a record that it cuts is no last piece (RULES 24.3), and is left out.
// Kept a number (docs/DESIGN-PASS.md, 1): no plainer. What came before a read that failed is played, so that there is a number beside the failure.
pub fn read_events<I: Read>(rt: &impl Eprint, input: &mut I, events: &mut [u8]) -> usize
    ensures { IsPrefixLen result events.new }
{
    // Kept (docs/DESIGN-PASS.md, 3): no plainer. What is counted are bytes, by reads of any length; `read_exact` does not say how many came before the end.
    let mut done = 0;
    while done < events.len() {
        match input.read(&mut events[done..]) {
            Ok(0) => break,
            Ok(more) => done += more,
            Err(e) => {
                fail(rt, "player: standard input", e);
                return done - done % EVENT_SIZE;
            }
        }
    }
    done
}
