//! Goes through the rows that bench/ measures by in the folder that it runs in, and prints what each gives.
//!
//! A row is a line of `rows.txt`, which `data/README` explains.
#![tactic(auto)]

mod chained;
mod fault;
mod iterations;
mod lines;
mod payload;
mod rows;
mod stage_answers;
mod stage_cuts;
mod stage_moments;
mod stage_parts;
mod stage_texts;
mod training;
mod twice;
mod words;

use std::{fs, io};

fn main(rt: HostRuntime) -> io::Result<()> {
    let index = fs::read_to_string(&rt, "rows.txt")?;
    for line in index.lines() {
        match rows::outcome(&rt, rt.alloc(), line) {
            Ok(text) => print!(rt; "{line}\n{text}")?,
            Err(fault) => println!(rt; "{line}\n{fault:?}")?,
        }
    }
    Ok(())
}
