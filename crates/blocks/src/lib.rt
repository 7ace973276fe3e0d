// RULES 24.9 and 24.10: blocks of totals put into a buffer. Each public function returns where its bytes end.
#![tactic(auto)]

ghost use Rattle.std.specs.Prelude.{◌+◌, ◌*◌, ◌≤◌, ◌≡◌, [], ◌∷◌, ◌++◌, length, take};
ghost use Rattle.io.specs.Counts.{IsPrefixLen};
ghost use Rattle.lines.specs.Lines.{hex, Puts};
ghost use Rattle.tallies.specs.Tally.{statuses};
ghost use Rattle.tallies.specs.Counters.{tally_in};
ghost use Rattle.blocks.specs.Block.{numeral, figure_line, status_lines, figures, name_line, log_block, all_block, unreadable};

use lines::Writer;
use tallies::counters::{ACCEPTED_AT, Counters, ENTRY_AT, LARGEST_AT, LEFT_AT};

// All lines of a block below its heading take fewer bytes.
pub const FIGURES_ROOM: usize = 16384;

// Kept (docs/DESIGN-PASS.md, 4): the promise. `write!` promises its bytes where it is Ok, and never that it is; io's `decimal` always puts them.
fn put_number(out: &mut Writer, n: u64)
    requires { out.old.at + 20 ≤ length out.old.buffer.now }
    ensures puts { Puts out.old out.new (numeral n) }
    ensures short { out.new.at ≤ out.old.at + 20 }
{
    let mut text = [0u8; 20];
    let k = io::decimal(n, &mut text);
    out.put_bytes(&text[..k]);
}

// RULES 24.9: what stands behind the word of a line.
#[tactic(auto, unfolding(crate::specs::Block::figure_line))]
fn put_figure(out: &mut Writer, n: u64)
    requires { out.old.at + 22 ≤ length out.old.buffer.now }
    ensures puts { Puts out.old out.new (figure_line [] n) }
    ensures short { out.new.at ≤ out.old.at + 22 }
{
    out.put(b' ');
    put_number(out, n);
    out.put(b'\n');
}

#[tactic(auto, unfolding(crate::specs::Block::figure_line))]
fn put_line(out: &mut Writer, word: &[u8], n: u64)
    requires { out.old.at + length word.now + 22 ≤ length out.old.buffer.now }
    ensures puts { Puts out.old out.new (figure_line word.now n) }
    ensures short { out.new.at ≤ out.old.at + length word.now + 22 }
{
    out.put_bytes(word);
    put_figure(out, n);
}

#[tactic(auto, unfolding(crate::specs::Block::figure_line))]
fn put_status(out: &mut Writer, word: &[u8], status: u8, n: u64)
    requires { out.old.at + length word.now + 25 ≤ length out.old.buffer.now }
    ensures puts { Puts out.old out.new (figure_line (word.now ++ hex status) n) }
    ensures short { out.new.at ≤ out.old.at + length word.now + 25 }
{
    out.put_bytes(word);
    out.put_hex(status);
    put_figure(out, n);
}

// RULES 24.9: no line for a status without a count.
fn put_count(out: &mut Writer, word: &[u8], status: u8, n: u64)
    requires { out.old.at + length word.now + 25 ≤ length out.old.buffer.now }
    ensures puts { Puts out.old out.new (status_lines word.now status (n ∷ [])) }
    ensures short { out.new.at ≤ out.old.at + length word.now + 25 }
{
    if n > 0 {
        put_status(out, word, status, n);
    }
}

fn put_statuses(out: &mut Writer, word: &[u8], counts: &[u64])
    requires counts_len_bound { length counts.now ≤ statuses }
    requires word_in_bounds { out.old.at + length counts.now * (length word.now + 25) ≤ length out.old.buffer.now }
    ensures puts { Puts out.old out.new (status_lines word.now 0 counts.now) }
    ensures short { out.new.at ≤ out.old.at + length counts.now * (length word.now + 25) }
{
    for (status, &n) in counts.iter().enumerate() {
        put_count(out, word, status as u8, n);
    }
}

fn put_figures(out: &mut Writer, counts: &Counters)
    requires { out.old.at + 16384 ≤ length out.old.buffer.now }
    ensures { Puts out.old out.new (figures (tally_in counts.now)) }
{
    put_line(out, b"accepted", counts[ACCEPTED_AT]);
    put_statuses(out, b"ends", &counts[..ENTRY_AT]);
    put_statuses(out, b"entry", &counts[ENTRY_AT..ACCEPTED_AT]);
    put_line(out, b"largest", counts[LARGEST_AT]);
    put_line(out, b"left", counts[LEFT_AT]);
}

fn put_name(out: &mut Writer, word: &[u8], name: &[u8])
    requires { out.old.at + length word.now + length name.now + 2 ≤ length out.old.buffer.now }
    ensures { Puts out.old out.new (name_line word.now name.now) }
{
    out.put_bytes(word);
    out.put(b' ');
    out.put_bytes(name);
    out.put(b'\n');
}

#[tactic(auto, unfolding(crate::specs::Block::log_block))]
pub fn put_log(buffer: &mut [u8], name: &[u8], counts: &Counters) -> usize
    requires { length name.now + 5 + 16384 ≤ length buffer.old }
    ensures { (take result buffer.new ≡ log_block name.now (tally_in counts.now)) × IsPrefixLen result buffer.new }
{
    let mut out = Writer { buffer, at: 0 };
    put_name(&mut out, b"log", name);
    put_figures(&mut out, counts);
    out.at
}

#[tactic(auto, unfolding(crate::specs::Block::all_block))]
pub fn put_all(buffer: &mut [u8], counts: &Counters) -> usize
    requires { 4 + 16384 ≤ length buffer.old }
    ensures { (take result buffer.new ≡ all_block (tally_in counts.now)) × IsPrefixLen result buffer.new }
{
    let mut out = Writer { buffer, at: 0 };
    out.put_bytes(b"all\n");
    put_figures(&mut out, counts);
    out.at
}

pub fn put_unreadable(buffer: &mut [u8], name: &[u8]) -> usize
    requires { length name.now + 12 ≤ length buffer.old }
    ensures { (take result buffer.new ≡ unreadable name.now) × IsPrefixLen result buffer.new }
{
    let mut out = Writer { buffer, at: 0 };
    put_name(&mut out, b"unreadable", name);
    out.at
}
