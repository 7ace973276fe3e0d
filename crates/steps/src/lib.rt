// What the steps share: which fates and sweeps end somebody. What each step makes of the bytes is in specs/, its laws
// in proofs/; the loops themselves are in `report`, `note`, `close` and `restate`.
#![tactic(auto)]

ghost use Rattle.std.specs.Prelude.{◌≡◌};
ghost use Rattle.steps.specs.Steps.{ends_fate, ends_nobody};

use values::Sweep;

// Kept (docs/DESIGN-PASS.md, 2): no plainer than its name; the edit nobody_ends stands on it.
pub fn is_end(f: Option<u8>) -> bool
    ensures { result ≡ ends_fate f }
{
    f.is_some()
}

// Asked first, so that a command's entry passes over no record that it leaves.
pub fn ends_nobody(w: Sweep) -> bool
    ensures { result ≡ ends_nobody w }
{
    w == Sweep::Nobody
}
