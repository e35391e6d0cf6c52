// Measures the library. The times are on standard error: standard output is the same on every run.
#![tactic(auto)]

mod failure;
mod jobs;
mod meter;

use failure::Failure;
use jobs::{measure_block, measure_opening, measure_plate, measure_sealing};
use meter::Meter;
use permutation::Permutation;
use permutation::minalpher::Minalpher;
use permutation::words::RowWords;
use std::process::ExitCode;

const PLATES: [u32; 3] = [32, 1024, 4096];

const TEXTS: [u32; 3] = [4096, 32768, 131071];

fn measure_kind<K: Permutation>(meter: &mut Meter<'_>, kind: &str) -> Result<(), Failure> {
    measure_block(
        meter,
        format_args!("{kind} forward"),
        |block| K::forward(block),
    )?;
    measure_block(
        meter,
        format_args!("{kind} backward"),
        |block| K::backward(block),
    )?;
    for n in PLATES {
        measure_plate::<K>(meter, kind, n)?;
    }
    for n in TEXTS {
        measure_sealing::<K>(meter, kind, n)?;
    }
    for n in TEXTS {
        measure_opening::<K>(meter, kind, n)?;
    }
    Ok(())
}

fn run(rt: &HostRuntime) -> Result<(), Failure> {
    let mut meter = Meter { rt, mixed: 0 };
    measure_kind::<Minalpher>(&mut meter, "matrices")?;
    measure_kind::<RowWords>(&mut meter, "rows")?;
    let mixed = meter.mixed;
    eprintln!(rt; "what all runs come to: {mixed}")?;
    Ok(())
}

fn main(rt: HostRuntime) -> ExitCode {
    match run(&rt) {
        Ok(()) => ExitCode::SUCCESS,
        Err(_) => ExitCode::FAILURE,
    }
}
