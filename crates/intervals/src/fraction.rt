// Fractions, as plain numbers.
ghost use Rattle.std.specs.Prelude.{Some};
ghost use Rattle.intervals.specs.Text.{fraction_text};

use std::fmt;

// numerator/denominator. A chooser names short ones: in lowest terms, with both parts within 2^18.
#[derive(Clone, Copy, PartialEq, Eq, Debug)]
pub struct Fraction {
    pub numerator: i32,
    pub denominator: u32,
}

impl fmt::Display for Fraction {
    ghost output = { λ f. Some (fraction_text f) };

    fn fmt<W: fmt::Write>(&self, f: &mut fmt::Formatter<W>) -> fmt::Result {
        write!(f, "{}/{}", self.numerator, self.denominator)
    }
}
