// RULES 24.12: a log cut in stretches: what is left of one is carried to the front of the next.
ghost use Rattle.std.specs.Prelude.{◌≤◌, length};
ghost use Rattle.logs.specs.Walking.{Ready, TakenAs};

use crate::play::Standing;
use crate::reader::play_stretch;

// Kept (docs/DESIGN-PASS.md, 6): no plainer; what is left goes to the front of the whole buffer, of which `end` bytes are filled.
// Plays the whole records among the first `end` bytes of the buffer, and says how many bytes behind them it carried to its front.
// `ready` is what `goes_on` asks beside `taken`, so that nobody has to believe it (docs/TRUST.md).
pub fn take_in(standing: &mut Standing, buffer: &mut [u8], end: usize) -> usize
    requires { end ≤ length buffer.old }
    ensures ready { Ready buffer.old end standing.old }
    ensures taken { TakenAs buffer.old end standing.old standing.new buffer.new result }
{
    let at = play_stretch(&buffer[..end], standing);
    buffer.copy_within(at..end, 0);
    end - at
}
