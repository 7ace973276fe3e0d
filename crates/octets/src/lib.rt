// Bytes of a slice as records, and numbers in bytes.
#![tactic(auto)]

pub mod records;
pub mod sizes;

ghost use Rattle.std.specs.Prelude.{◌≡◌, ◌∷◌, ◌+◌, ◌*◌, ◌≤◌};
ghost use Rattle.octets.specs.Bytes.{flag, bit_of, tag_in, tag_bytes, is_mark};
ghost use Rattle.octets.specs.Words.{IsWord};

use crate::sizes::{TAG_OFFSET, TAGGED_SIZE, UNTAGGED_SIZE};
use values::Tag;

// The first two bytes of a record, of whatever width.
pub fn is_mark(first: u8, second: u8, m: u8) -> bool
    ensures { result ≡ is_mark first second m }
{
    (first == 0x54) & (second == m)
}

pub fn word_of(r: [u8; UNTAGGED_SIZE]) -> u64
    ensures { IsWord r result }
{
    u64::from_le_bytes(r)
}

pub fn flag_byte(f: bool) -> u8
    ensures { (result ≡ flag f) × (result ≤ 1) }
{
    u8::from(f)
}

// The bit of weight d, which is not 0.
// Kept (docs/DESIGN-PASS.md, 4): the promise; it holds for every weight, and a mask is right for powers of two alone.
pub fn bit_of(n: u8, d: u8) -> bool
    requires { 1 ≤ d }
    ensures { result ≡ bit_of n d }
{
    n / d % 2 == 1
}

// Kept (docs/DESIGN-PASS.md, 4): the speed; from_be_bytes takes 10 instructions an event more at 3 tasks, 163 at 64.
pub fn tag_in(r: [u8; TAGGED_SIZE]) -> Tag
    ensures { result ≡ tag_in r }
{
    (r[TAG_OFFSET] as Tag) * 256 + (r[TAG_OFFSET + 1] as Tag)
}

// A record of this mark, these four bytes and this tag.
// Kept (docs/DESIGN-PASS.md, 4): the speed; to_be_bytes takes 5 instructions an event more at 3 tasks, 66 at 64.
pub fn tagged_bytes(m: u8, a: u8, b: u8, c: u8, d: u8, g: Tag) -> [u8; TAGGED_SIZE]
    ensures { result ≡ 0x54 ∷ m ∷ a ∷ b ∷ c ∷ d ∷ tag_bytes g }
{
    [0x54, m, a, b, c, d, (g / 256) as u8, (g % 256) as u8]
}
