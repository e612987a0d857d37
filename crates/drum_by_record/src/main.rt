// Winds a drum of cable from a capture that begins with a parameter record, and prints the bill.
#![tactic(auto)]

use anyhow::{Context, anyhow};
use counter::PickedCounter;
use data_lines::{DataLine, data_line};
use encoder::{PickedEvaluation, Staged};
use hex_digits::{HexFault, from_hex};
use settings::Parameters;
use std::io::{BufRead, BufReader};
use winding::{Wheel, Winding, read_wheel, record_digits, wind_line};

// What the head of a capture sets up.
#[derive(Drop)]
struct Drum {
    wheel: Wheel,
    winding: Winding<Staged<PickedEvaluation>, PickedCounter>,
}

fn main(rt: HostRuntime) -> anyhow::Result<()> {
    run(&rt)
}

fn run(rt: &HostRuntime) -> anyhow::Result<()> {
    let drum = wind_all(rt)?;
    let bill = drum.winding.bill_by_evaluation(&drum.wheel);
    println!(rt; "{bill}")?;
    Ok(())
}

// Winds the capture on standard input. Bad samples are reported and passed over. One loop for the head
// and the samples: with a second loop over the lines that are left, the proof was tried and did not close.
fn wind_all(rt: &HostRuntime) -> anyhow::Result<Drum> {
    let mut record = Vec::new(rt.alloc());
    let mut drum: Option<Drum> = None;
    let lines = BufReader::new(rt.alloc(), rt.stdin())?.lines(rt.alloc());
    for line in lines
        .enumerate()
        .filter_map(|(index, line)| data_line(rt, index, line))
    {
        let line = line?;
        if let Some(begun) = &mut drum {
            line.reported(rt, wind_line(&mut begun.winding, line.text.as_str()))?;
        } else if let Some(digits) = record_digits(line.text.as_str()) {
            append(rt, &mut record, &line, digits)?;
        } else {
            drum = Some(set_up(rt, &record, &line)?);
        }
    }
    match drum {
        Some(drum) => Ok(drum),
        None => {
            let _ = read_record(rt, &record)?;
            Err(anyhow!("the capture has no wheel"))
        }
    }
}

// Adds a line's bytes to the record.
fn append(
    rt: &HostRuntime,
    record: &mut Vec<u8>,
    line: &DataLine,
    digits: &[u8],
) -> anyhow::Result<()> {
    let read = from_hex(rt.alloc(), digits);
    if let Err(HexFault::NoMemory) = &read {
        return Err(anyhow!("the record does not fit the memory"));
    }
    let bytes = line
        .reported(rt, read)?
        .context("the record cannot be read")?;
    record.extend_from_slice(&bytes)?;
    Ok(())
}

// The parameters of the record; where it is refused, the refusal is printed.
fn read_record(rt: &HostRuntime, record: &[u8]) -> anyhow::Result<Parameters> {
    match Parameters::read(record) {
        Ok(parameters) => Ok(parameters),
        Err(refusal) => {
            let words = refusal.in_words();
            println!(rt; "{words}")?;
            Err(anyhow!("the record is refused"))
        }
    }
}

// Sets up the winding by the record and by the wheel's line behind it.
fn set_up(rt: &HostRuntime, record: &[u8], line: &DataLine) -> anyhow::Result<Drum> {
    let parameters = read_record(rt, record)?;
    let wheel = line
        .reported(rt, read_wheel(line.text.as_str()))?
        .context("the capture has no wheel behind its record")?;
    Ok(Drum {
        wheel,
        winding: Winding::new(parameters.evaluation(), parameters.counter()),
    })
}
