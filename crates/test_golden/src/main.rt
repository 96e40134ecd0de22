//! Goes through golden rows in the folder that it runs in: command lines over objects in memory, of which it says whether what
//! they give is as expected, and linear programs and parts of problems, of which it prints what they give.
//!
//! A row is a line of `rows.txt`, which `data/README` explains.
#![tactic(auto)]

mod alike;
mod chain;
mod devices;
mod edits;
mod fault;
mod harm;
mod journals;
mod moments;
mod numerals;
mod parts;
mod proper;
mod reading;
mod rows;
mod runs;
mod solvers;
mod tables;
mod words;

use std::{fs, io};

fn main(rt: HostRuntime) -> io::Result<()> {
    let index = fs::read_to_string(&rt, "rows.txt")?;
    for line in index.lines() {
        match rows::outcome(&rt, rt.alloc(), line) {
            Ok(text) => print!(rt; "{line}\n{text}")?,
            Err(fault) => println!(rt; "{line}\n{fault:?}")?,
        }
    }
    Ok(())
}
