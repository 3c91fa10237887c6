// Why an image is not written.
ghost use Rattle.std.specs.Prelude.{◌≡◌, Some};
ghost use Rattle.writer.specs.Refusals.{number_of, refused_line};

use std::error::Error;
use std::fmt;

#[derive(Clone, Copy, PartialEq, Eq, Debug)]
pub enum Refusal {
    // The buffer is shorter than the image.
    TooShort,
    // No header holds that many unknowns or records: n is not from 1 to 8, or t is not from 1 to 256.
    Header,
}

impl Refusal {
    pub fn number(&self) -> u8
        ensures { result ≡ number_of self.now }
    {
        match self {
            Refusal::TooShort => 11,
            Refusal::Header => 16,
        }
    }
}

impl fmt::Display for Refusal {
    ghost output = { λ refusal. Some (refused_line refusal) };

    fn fmt<W: fmt::Write>(&self, f: &mut fmt::Formatter<W>) -> fmt::Result {
        write!(f, "refused {}", self.number())
    }
}

impl Error for Refusal {}
