// Winds a drum of cable from a capture of the encoder's lines, and prints the bill.
#![tactic(auto)]

use anyhow::Context;
use counter::{Counter, FullRange};
use data_lines::data_line;
use encoder::{Evaluation, Quadruple};
use std::io::{BufRead, BufReader};
use winding::{Wheel, Winding, read_wheel, wind_line};

fn main(rt: HostRuntime) -> anyhow::Result<()> {
    run(&rt)
}

fn run(rt: &HostRuntime) -> anyhow::Result<()> {
    let endless = FullRange::new(0, false);
    let mut winding = Winding::new(Quadruple, endless);
    let wheel = wind_all(rt, &mut winding)?;
    let bill = winding.bill_by_quadruple(&wheel);
    println!(rt; "{bill}")?;
    Ok(())
}

// Winds the capture on standard input, and answers its wheel. Bad lines are reported and passed over.
fn wind_all<E: Evaluation, C: Counter>(
    rt: &HostRuntime,
    winding: &mut Winding<E, C>,
) -> anyhow::Result<Wheel> {
    let mut lines = BufReader::new(rt.alloc(), rt.stdin())?
        .lines(rt.alloc())
        .enumerate()
        .filter_map(|(index, line)| data_line(rt, index, line));
    // The wheel's line is let go before the samples are read.
    let wheel = {
        let head = lines.next().context("the capture is empty")??;
        head.reported(rt, read_wheel(head.text.as_str()))?
            .context("the capture does not begin with a wheel")?
    };
    for line in lines {
        let line = line?;
        line.reported(rt, wind_line(winding, line.text.as_str()))?;
    }
    Ok(wheel)
}
