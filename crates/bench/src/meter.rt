// How long calls take.
use crate::failure::Failure;
use modes::refusal::Refusal;
use std::fmt::Display;
use std::time::{Duration, Instant};

// How long each item is measured, in milliseconds.
const SPAN: u64 = 100;

// How many calls a run makes, and how many bytes each works on.
#[derive(Clone, Copy)]
pub struct Load {
    pub calls: u32,
    pub bytes: u32,
}

#[derive(Drop)]
pub struct Meter<'a> {
    pub rt: &'a HostRuntime,
    // What all calls came to, so that they have to be made.
    pub mixed: u8,
}

impl Meter<'_> {
    // Repeats a run of calls until its time is over, and tells of the shortest run, which others on the machine disturbed
    // least.
    pub(crate) fn measure<N: Display + Drop, F: FnMut() -> Result<u8, Refusal> + Drop>(
        &mut self,
        name: N,
        load: Load,
        mut call: F,
    ) -> Result<(), Failure>
        requires { F.IsAlwaysCallable call }
    {
        let rt = self.rt;
        let span = Duration::from_millis(SPAN);
        let start = Instant::now(rt)?;
        let mut shortest = Duration::MAX;
        for _k in 0..1000000u32 {
            let begun = Instant::now(rt)?;
            for _k in 0..load.calls {
                self.mixed ^= call()?;
            }
            shortest = shortest.min(begun.elapsed(rt)?);
            if start.elapsed(rt)? >= span {
                break;
            }
        }
        let nanos = shortest.as_secs_f64() * 1000000000.0;
        let per_call = nanos / f64::from(load.calls);
        let per_byte = per_call / f64::from(load.bytes);
        let rate = 1000.0 / per_byte;
        eprintln!(rt;
            "{name}: {per_call:.1} ns a call, {per_byte:.2} ns a byte, {rate:.2} million bytes a second"
        )?;
        println!(rt; "{name}: measured")?;
        Ok(())
    }
}
