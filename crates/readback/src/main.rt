// Reads an image from standard input and writes one line: that it is accepted, or why it is refused.
#![tactic(auto)]

ghost use Rattle.std.specs.Prelude.{◌≡◌, IfOk, string_bytes};
ghost use Rattle.reader.specs.Lines.{line_of};
ghost use Rattle.reader.specs.Reading.{read_of};

use reader::read;
use rows::layout;
use std::alloc::{AllocError, Global};
use std::io;
use std::io::Read;

// The line for these bytes.
fn line(heap: Global, image: &[u8]) -> Result<String, AllocError>
    ensures { IfOk result (λ text. string_bytes text ≡ line_of (read_of image.now)) }
{
    match read(image) {
        Ok(accepted) => format!(in heap; "{accepted}"),
        Err(refusal) => format!(in heap; "{refusal}"),
    }
}

fn main(rt: HostRuntime) -> io::Result<()> {
    let mut image = Vec::new(rt.alloc());
    // One byte more than the largest image: what is longer is refused for its length, and not held whole.
    // std has no From<usize> for u64.
    let mut input = rt.stdin().take(layout::LARGEST_IMAGE as u64 + 1);
    input.read_to_end(&mut image)?;
    rt.println(line(rt.alloc(), &image)?)
}
