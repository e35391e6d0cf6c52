// Answers cases, one a line, so that another program's answers can be compared with these.
#![tactic(auto)]

mod answer;
mod case;
mod holders;
mod sheets;

use std::io;
use std::io::{BufRead, BufReader};

fn main(rt: HostRuntime) -> io::Result<()> {
    let heap = rt.alloc();
    for line in BufReader::new(heap, rt.stdin())?.lines(heap) {
        let answer = answer::answer_line(heap, line?.as_str())?;
        println!(rt; "{answer}")?;
    }
    Ok(())
}
