// A part written over bytes.
ghost use Rattle.std.specs.Prelude.{◌≡◌, ◌+◌, ◌≤◌, length};
ghost use Rattle.writer.specs.Writing.{written};

pub(crate) fn put(bytes: &mut [u8], at: usize, part: &[u8])
    requires { at + length part.now ≤ length bytes.old }
    ensures { bytes.new ≡ written bytes.old at part.now }
{
    bytes[at..at + part.len()].copy_from_slice(part);
}
