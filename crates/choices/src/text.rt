// Intervals and what is named, as text.
ghost use Rattle.std.specs.Prelude.{◌≡◌, Some};
ghost use Rattle.choices.specs.Text.{error_text, choice_text};
ghost use Rattle.choices.specs.declared.text.LineError.TheVariants.{NotUnderstood};

use intervals::{End, Fraction, Interval};
use std::error::Error;
use std::fmt;
use std::num::ParseIntError;

// Why a line gives no interval: it is not understood, or its parts break a rule of intervals.
#[derive(Clone, Copy, PartialEq, Eq, Debug)]
pub enum LineError {
    NotUnderstood,
    NoInterval,
}

impl fmt::Display for LineError {
    ghost output = { λ e. Some (error_text e) };

    fn fmt<W: fmt::Write>(&self, f: &mut fmt::Formatter<W>) -> fmt::Result {
        f.write_str(match self {
            LineError::NotUnderstood => "not understood",
            LineError::NoInterval => "no interval",
        })
    }
}

impl Error for LineError {}

impl From<ParseIntError> for LineError {
    ghost from_gives = { λ _ e. e ≡ NotUnderstood };

    fn from(_: ParseIntError) -> Self {
        Self::NotUnderstood
    }
}

// What a chooser named, or that it named nothing: std does not show an Option.
#[derive(Clone, Copy)]
pub struct Choice(pub Option<Fraction>);

impl fmt::Display for Choice {
    ghost output = { λ c. Some (choice_text c.0) };

    fn fmt<W: fmt::Write>(&self, f: &mut fmt::Formatter<W>) -> fmt::Result {
        match self.0 {
            Some(fraction) => write!(f, "{fraction}"),
            None => f.write_str("nothing"),
        }
    }
}

// The interval that a line gives: by functions, since neither it nor an end that may be absent is a type of this crate.
pub fn interval(line: &str) -> Result<Interval, LineError> {
    let mut words = line.split(' ');
    let (Some(scale), Some(lower), Some(upper), None) = (
        words.next(),
        words.next(),
        words.next(),
        words.next(),
    ) else {
        return Err(LineError::NotUnderstood);
    };
    Interval::of(scale.parse()?, end(lower)?, end(upper)?).ok_or(LineError::NoInterval)
}

// An end, or that it is absent.
fn end(word: &str) -> Result<Option<End>, LineError> {
    if word == "-" {
        return Ok(None);
    }
    let (numerator, divisor) = word.split_once('/').ok_or(LineError::NotUnderstood)?;
    Ok(Some(End {
        numerator: numerator.parse()?,
        divisor: divisor.parse()?,
    }))
}
