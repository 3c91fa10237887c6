// The seal of a block.
ghost use Rattle.std.specs.Prelude.{◌≡◌, ◌≤◌, length, take};
ghost use Rattle.rows.specs.Bytes.{seal_of};

use crate::layout;

// The seal that the bytes before it, 508 of them, ask for.
pub fn seal(block: &[u8]) -> u32
    ensures { result ≡ seal_of (take 508 block.now) }
{
    weighed(body(block))
}

// The bytes before the seal, as far as the block has them.
fn body(block: &[u8]) -> &[u8]
    ensures is { result.now ≡ take 508 block.now }
    ensures size { length result.now ≤ 508 }
{
    block.get(..layout::SEAL_AT).unwrap_or(block)
}

// 1 plus the sum of (i + 1) times byte i.
fn weighed(body: &[u8]) -> u32
    requires { length body.now ≤ 508 }
    ensures { result ≡ seal_of body.now }
{
    // A loop: in a chain, no bound is found for the weights and their sum.
    let mut sum: u32 = 1;
    // std has no From<usize> for u32, and the cast is proved to lose nothing.
    for (i, byte) in body.iter().enumerate() {
        sum += (i as u32 + 1) * u32::from(*byte);
    }
    sum
}
