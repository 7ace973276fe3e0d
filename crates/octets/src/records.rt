// A record of N bytes, at a place of a slice.
ghost use Rattle.std.specs.Prelude.{◌≡◌, ◌+◌, ◌≤◌, length};
ghost use Rattle.laws.specs.RecordsInLists.{record_at, put_at};
ghost use Rattle.octets.specs.Sizes.{tagged_size};

use crate::sizes::TAGGED_SIZE;

// In a loop, which the compiler makes one reading of: for records of which every byte is looked at.
// Kept (docs/DESIGN-PASS.md, 3): the speed; copy_from_slice takes some 900 instructions an event more at 3 tasks.
pub fn load_record<const N: usize>(b: &[u8], at: usize) -> [u8; N]
    requires { at + N ≤ length b.now }
    ensures { result ≡ record_at N b.now at }
{
    let mut r = [0u8; N];
    for k in 0..N {
        r[k] = b[at + k];
    }
    r
}

// A task, ended or event record, one by one, so that the compiler reads those bytes that are used.
// Kept (docs/DESIGN-PASS.md, 2): the speed; where all call load_record, an event takes 43, 56 and 173 instructions more at 3, 16 and 64 tasks.
pub fn get_tagged(b: &[u8], at: usize) -> [u8; TAGGED_SIZE]
    requires { at + tagged_size ≤ length b.now }
    ensures { result ≡ record_at tagged_size b.now at }
{
    [
        b[at],
        b[at + 1],
        b[at + 2],
        b[at + 3],
        b[at + 4],
        b[at + 5],
        b[at + 6],
        b[at + 7],
    ]
}

// Kept (docs/DESIGN-PASS.md, 3): the speed; copy_from_slice takes 8 instructions an event more at 3 tasks.
pub fn put_record<const N: usize>(b: &mut [u8], at: usize, r: [u8; N])
    requires { at + N ≤ length b.old }
    ensures { b.new ≡ put_at N b.old at r.entry }
{
    for k in 0..N {
        b[at + k] = r[k];
    }
}
