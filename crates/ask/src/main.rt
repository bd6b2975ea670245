// Reads commands from standard input, one a line, and writes one line for each. docs/ASK.md has the commands and what they answer.
#![tactic(auto)]

use answer::Answer;
use anyhow::Result;
use bad::Bad;
use std::io::{self, BufRead, BufReader, BufWriter, Write};
use store::Store;

mod answer;
mod bad;
mod cache;
mod commands;
mod ids;
mod merge;
mod rows;
mod store;
mod table;
mod words;

fn main(rt: HostRuntime) -> Result<()> {
    let alloc = rt.alloc();
    let mut store = Store::new(alloc);
    let mut answer = Answer::new(alloc);
    let reader = BufReader::new(alloc, rt.reader())?;
    let mut out = BufWriter::new(alloc, io::writer(&rt))?;
    for line in reader.split(alloc, b'\n') {
        answer.clear();
        match run(&mut store, line?.as_slice(), &mut answer) {
            Ok(()) => writeln!(out, "{}", answer.text())?,
            Err(why) => writeln!(out, "bad: {why}")?,
        }
    }
    out.flush()?;
    Ok(())
}

// An empty line has an empty answer.
fn run(store: &mut Store, line: &[u8], answer: &mut Answer) -> Result<(), Bad> {
    let line = str::from_utf8(line).map_err(|_| Bad::NotText)?;
    if line.is_empty() {
        return Ok(());
    }
    commands::run(store, line, answer)
}
