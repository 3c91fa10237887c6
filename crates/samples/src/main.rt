// Answers every image that lines.txt names by its line, then shows the records of those that are accepted,
// and then writes these again.
#![tactic(auto)]

mod again;

use again::take_apart;
use promises::write_and_read;
use reader::{Accepted, Record, read};
use rows::{Origin, PlainRow, layout};
use std::fs;
use writer::Records;

fn image(rt: &HostRuntime, name: &str) -> anyhow::Result<Vec<u8>> {
    Ok(fs::read(rt, name)?)
}

fn answer(rt: &HostRuntime, name: &str) -> anyhow::Result<()> {
    let bytes = image(rt, name)?;
    match read(&bytes) {
        Ok(accepted) => println!(rt; "{name} {accepted}")?,
        Err(refusal) => println!(rt; "{name} {refusal}")?,
    }
    Ok(())
}

// How many of the records are inputs and how many are steps, as they are shown one by one.
fn shown(accepted: &Accepted) -> (usize, usize) {
    let records = 0..accepted.records();
    let inputs = records.filter(|r| matches!(accepted.record(*r), Ok(Record::Input(_))));
    let records = 0..accepted.records();
    let steps = records.filter(|r| matches!(accepted.record(*r), Ok(Record::Step(_))));
    (inputs.count(), steps.count())
}

fn show(rt: &HostRuntime, name: &str) -> anyhow::Result<()> {
    let bytes = image(rt, name)?;
    if let Ok(accepted) = read(&bytes) {
        let (inputs, steps) = shown(&accepted);
        print!(rt; "{name} shows {inputs} inputs and {steps} steps, then ")?;
        match accepted.record(accepted.records()) {
            Ok(_) => println!(rt; "one more")?,
            Err(refusal) => println!(rt; "{refusal}")?,
        }
    }
    Ok(())
}

// What is in a buffer before it is written.
const BEFORE: u8 = 170;

// Tells what comes of writing the records into the buffer, and whether it holds then what is expected.
fn tell(
    rt: &HostRuntime,
    records: &Records,
    buffer: &mut [u8],
    expected: &[u8],
    words: [&str; 2],
) -> anyhow::Result<()> {
    match write_and_read(records, buffer) {
        Ok(true) => print!(rt; "accepted")?,
        Ok(false) => print!(rt; "not accepted")?,
        Err(refusal) => print!(rt; "{refusal}")?,
    }
    let [as_expected, otherwise] = words;
    let word = if *buffer == *expected {
        as_expected
    } else {
        otherwise
    };
    println!(rt; ", {word}")?;
    Ok(())
}

// Tells whether the image is written as it was, with three bytes behind it untouched.
fn write_again(rt: &HostRuntime, bytes: &[u8], records: &Records) -> anyhow::Result<()> {
    let behind = [BEFORE; 3];
    let mut expected = vec![in rt.alloc()]?;
    expected.extend_from_slice(bytes)?;
    expected.extend_from_slice(&behind)?;
    let mut buffer = vec![in rt.alloc(); BEFORE; expected.len()]?;
    tell(
        rt,
        records,
        &mut buffer,
        &expected,
        ["the same bytes", "other bytes"],
    )
}

// Tells with which number a buffer of that size is refused, and whether it is untouched.
fn write_nothing(rt: &HostRuntime, size: usize, records: &Records) -> anyhow::Result<()> {
    let mut buffer = vec![in rt.alloc(); BEFORE; size]?;
    let untouched = vec![in rt.alloc(); BEFORE; size]?;
    tell(
        rt,
        records,
        &mut buffer,
        &untouched,
        ["untouched", "touched"],
    )
}

// Writes the records of an accepted image again, into a buffer that is longer and into one that is a byte too short.
fn rewrite(rt: &HostRuntime, name: &str) -> anyhow::Result<()> {
    let bytes = image(rt, name)?;
    if let Ok(accepted) = read(&bytes) {
        let taken = take_apart(rt.alloc(), &bytes, &accepted)?;
        let records = Records {
            unknowns: taken.unknowns,
            origins: &taken.origins,
            rows: &taken.rows,
        };
        print!(rt; "{name} written again: ")?;
        write_again(rt, &bytes, &records)?;
        print!(rt; "{name} with a byte less: ")?;
        write_nothing(rt, bytes.len().saturating_sub(1), &records)?;
    }
    Ok(())
}

// Records that no header holds.
fn refuse(rt: &HostRuntime, unknowns: usize, count: usize) -> anyhow::Result<()> {
    let origins = vec![in rt.alloc(); Origin::Input { tag: 0 }; count]?;
    let rows = vec![in rt.alloc(); PlainRow { numbers: [0; 9] }; count]?;
    let records = Records {
        unknowns,
        origins: &origins,
        rows: &rows,
    };
    print!(rt; "{unknowns} unknowns, {count} records: ")?;
    write_nothing(rt, layout::LARGEST_IMAGE, &records)
}

// Does the work for the name of every image that the lines tell of.
fn for_each_image<F: FnMut(&str) -> anyhow::Result<()>>(
    lines: &str,
    mut work: F,
) -> anyhow::Result<()>
    requires { F.IsAlwaysCallable work }
{
    for line in lines.lines() {
        if let Some((name, _)) = line.split_once(' ') {
            work(name)?;
        }
    }
    Ok(())
}

fn main(rt: HostRuntime) -> anyhow::Result<()> {
    let lines = fs::read_to_string(&rt, "lines.txt")?;
    for_each_image(&lines, |name| answer(&rt, name))?;
    for_each_image(&lines, |name| show(&rt, name))?;
    for_each_image(&lines, |name| rewrite(&rt, name))?;
    refuse(&rt, 0, 1)?;
    refuse(&rt, 9, 1)?;
    refuse(&rt, 1, 0)?;
    refuse(&rt, 8, 257)?;
    Ok(())
}
