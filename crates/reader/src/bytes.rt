// Parts of a slice.
ghost use Rattle.std.specs.Prelude.{◌≡◌, ◌+◌, ◌≤◌, length, take, drop};
ghost use Rattle.rows.specs.Bytes.{zeros_in};

// So many bytes from a place on.
pub(crate) fn part<const N: usize>(bytes: &[u8], at: usize) -> &[u8; N]
    requires { at + N ≤ length bytes.now }
    ensures { result.now ≡ take N (drop at bytes.now) }
{
    bytes[at..at + N].as_array().unwrap()
}

// Whether the bytes from one place up to another are all zero.
pub(crate) fn zeros_in(bytes: &[u8], from: usize, to: usize) -> bool
    requires order { from ≤ to }
    requires within { to ≤ length bytes.now }
    ensures { result ≡ zeros_in bytes.now from to }
{
    bytes[from..to].iter().all(|byte| *byte == 0)
}
