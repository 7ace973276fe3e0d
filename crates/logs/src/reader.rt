// RULES 25.2: the log reader: it walks one lent stretch of log and remembers where it stands. Each function is thin; the work is done by `play_from`, on slice and
// offset.
ghost use Rattle.std.specs.Prelude.{◌≤◌, ◌≡◌, length};
ghost use Rattle.logs.specs.Walking.{StoodAt};

use crate::play::{Standing, play_from};

#[derive(Clone, Copy)]
pub struct LogReader<'a> {
    pub stretch: &'a [u8],
    pub at: usize,
}

impl<'a> LogReader<'a> {
    // At the start of the stretch.
    pub fn open(stretch: &'a [u8]) -> LogReader<'a>
        ensures { (result.stretch ≡ stretch.entry) × (result.at ≡ 0) }
    {
        LogReader { stretch, at: 0 }
    }

    pub fn place(self) -> usize
        ensures { result ≡ self.entry.at }
    {
        self.at
    }

    // Plays the whole records from where the reader stands, and hands it back standing behind them.
    pub fn play(self, standing: &mut Standing) -> LogReader<'a>
        requires { self.at ≤ length self.stretch.now }
        ensures { (result.stretch ≡ self.entry.stretch) × StoodAt self.entry.stretch.now self.entry.at standing.old standing.new result.at }
    {
        let at = play_from(self.stretch, self.at, standing);
        LogReader { at, ..self }
    }
}

// Where the reader stands when it has walked the whole stretch.
pub fn play_stretch(stretch: &[u8], standing: &mut Standing) -> usize
    ensures { StoodAt stretch.now 0 standing.old standing.new result }
{
    LogReader::open(stretch).play(standing).place()
}
