// The questions in their order; the first no refuses the image.
ghost use Rattle.std.specs.Prelude.{◌≡◌, ◌≤◌, length, OnOk, MatchResult, Ok, Err};
ghost use Rattle.rows.specs.Image.{OneImageEach};
ghost use Rattle.reader.specs.Exactness.{AcceptsExactlyImages};
ghost use Rattle.reader.specs.Reading.{header_asked, image_asked, Sized, read_of};
ghost use Rattle.reader.specs.Shown.{viewed};

use crate::accepted::Accepted;
use crate::fields::block_of;
use crate::image::Image;
use crate::questions::{ask, frame_right, header_right, is_length, seal_right};
use crate::refusal::Refusal;
use rows::layout;

fn ask_header(bytes: &[u8]) -> Result<(), Refusal>
    requires { 512 ≤ length bytes.now }
    ensures is { result ≡ header_asked bytes.now }
    ensures sized { OnOk result (Sized bytes.now) }
{
    let block = block_of(bytes, 0);
    ask(seal_right(block), Refusal::Seal(0))?;
    ask(
        frame_right(block, 0, 0, layout::HEADER_END),
        Refusal::Frame(0),
    )?;
    ask(header_right(block, bytes.len()), Refusal::Header)
}

// All questions; the image, if each is answered with yes.
fn ask_image(bytes: &[u8]) -> Result<Image<'_>, Refusal>
    ensures { MatchResult result
        (λ image. (image_asked bytes.now ≡ Ok tt) × (image.bytes.now ≡ bytes.now))
        (λ refusal. image_asked bytes.now ≡ Err refusal) }
{
    ask(is_length(bytes.len()), Refusal::Length)?;
    ask_header(bytes)?;
    let image = Image::new(bytes);
    image.ask_blocks()?;
    image.ask_last()?;
    Ok(image)
}

// Reads an image: accepts it, or refuses it by the first question whose answer is no.
// The bytes are accepted exactly when they are the image of a derivation: the one that its records show.
// Then no fractions satisfy all its input rows. Equal records have equal bytes, and equal bytes are those of equal records.
pub fn read(bytes: &[u8]) -> Result<Accepted<'_>, Refusal>
    ensures is { viewed result ≡ read_of bytes.now }
    ensures exactly { AcceptsExactlyImages bytes.now (viewed result) }
    ensures one_image_each { OneImageEach }
{
    Ok(ask_image(bytes)?.accepted())
}
