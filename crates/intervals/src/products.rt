// Products that compare fractions.
ghost use Rattle.std.specs.Prelude.{◌≡◌, ◌*◌, ◌^◌, ◌≤◌, pos, ◌*ℤ◌, unsigned_abs};

// A function of its own: written out in place, the 64 bits around each product stayed open in its caller's proof.
// The cast keeps the number, by the second clause; no `from` leads from u64 to i64.
pub(crate) fn product(a: i64, b: u64) -> i64
    requires fits { unsigned_abs a * b ≤ 2 ^ 61 }
    requires few { b ≤ 2 ^ 61 }
    ensures { result ≡ a *ℤ pos b }
{
    a * b as i64
}
