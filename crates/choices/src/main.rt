// What choosers name: reads intervals from standard input, one a line, and writes a line for each.
// A line is SCALE LOWER UPPER; an end is NUMERATOR/DIVISOR, or - where it is absent.
#![tactic(auto)]

ghost use Rattle.intervals.specs.Meaning.{Named};

mod likely;
mod text;

use choosers::{Dyadic, Edge, Simplest};
use intervals::{Chooser, Fraction, Interval};
use likely::Likely;
use std::io::{BufRead, BufReader};
use text::Choice;

// The slowness that this site holds likely.
const LIKELY: Fraction = Fraction {
    numerator: 5,
    denominator: 12,
};

// What any chooser names: proved from what every chooser keeps, and from nothing else.
fn asked<C: Chooser>(chooser: &mut C, interval: Interval) -> Option<Fraction>
    ensures { Named interval result }
{
    chooser.choose(interval)
}

fn ask<C: Chooser>(
    rt: &impl Print,
    name: &str,
    mut chooser: C,
    interval: Interval,
) -> anyhow::Result<()>
where
    C: Drop,
{
    let choice = Choice(asked(&mut chooser, interval));
    print!(rt; "{name} {choice}")?;
    Ok(())
}

fn ask_all(rt: &impl Print, interval: Interval) -> anyhow::Result<()> {
    let edge = Edge { below: Simplest };
    let dyadic = Dyadic { below: Simplest };
    let likely = Likely {
        value: LIKELY,
        below: Simplest,
    };
    ask(rt, "simplest", Simplest, interval)?;
    ask(rt, ", edge", edge, interval)?;
    ask(rt, ", dyadic", dyadic, interval)?;
    ask(rt, ", dyadic edge", Dyadic { below: edge }, interval)?;
    ask(rt, ", edge dyadic", Edge { below: dyadic }, interval)?;
    ask(rt, ", likely", likely, interval)?;
    println!(rt)?;
    Ok(())
}

fn answer(rt: &impl Print, line: &str) -> anyhow::Result<()> {
    match text::interval(line) {
        Ok(interval) => ask_all(rt, interval)?,
        Err(error) => println!(rt; "{error}")?,
    }
    Ok(())
}

fn main(rt: HostRuntime) -> anyhow::Result<()> {
    for line in BufReader::new(rt.alloc(), rt.stdin())?.lines(rt.alloc()) {
        answer(&rt, &line?)?;
    }
    Ok(())
}
