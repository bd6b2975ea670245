// The demonstration: reads at most 4,096 bytes, merges them under four rules with each byte for its own id, and writes the ids.
#![tactic(auto)]

ghost use Rattle.std.specs.Prelude.{◌≤◌, length, IfOk};
ghost use Rattle.demo.specs.Limits.{most};

use std::io::{ErrorKind, Input, Print, Read};
use std::{array, io};
use token::{Refusal, TokenId};

const MOST: usize = 4096;

// The rules: he, ll, hell, hello.
const LIST: [u32; 12] = [104, 101, 256, 108, 108, 257, 256, 257, 258, 258, 111, 259];

// A read or a write that fails ends it with the error as std writes it. No input is refused: the table and the lengths are the program's own.
fn main(rt: HostRuntime) -> io::Result<()> {
    let mut bytes = [0; MOST + 1];
    let n = read_full(&rt, &mut bytes)?;
    if n > MOST {
        return rt.println("too long");
    }
    let mut row = [TokenId::NONE; MOST];
    merge(&bytes[..n], &mut row).map_err(|_| ErrorKind::InvalidInput)?;
    write_ids(&rt, &row)
}

// Reads until the bytes are full or the input ends. How many were read comes back. The reader says how far each turn goes, so no `for` counts it, and
// the library's reading to the end allocates.
fn read_full(rt: &impl Input, bytes: &mut [u8]) -> io::Result<usize>
    ensures { IfOk result (λ n. n ≤ length bytes.new) }
{
    let mut reader = rt.reader();
    let mut done = 0;
    while done < bytes.len() {
        let n = reader.read(&mut bytes[done..])?;
        if n == 0 {
            break;
        }
        done += n;
    }
    Ok(done)
}

// Merges the bytes at the front of the row. Each byte is its own id.
fn merge(bytes: &[u8], row: &mut [u32]) -> Result<(), Refusal>
    requires { (length bytes.now ≤ length row.old) × (length bytes.now ≤ most) }
{
    let mut slots = [0; 64];
    pairs::build(&LIST, 260, &mut slots)?;
    let map: [u32; 256] = array::from_fn(|byte| byte as u32);
    let mut next = [0; MOST];
    let mut prev = [0; MOST];
    let mut heap = [0; 2 * MOST];
    let row = &mut row[..bytes.len()];
    bpe::simple_bpe_merge(&slots, &map, bytes, row, &mut next, &mut prev, &mut heap)?;
    Ok(())
}

// The ids up to the first none, with one space between, and a line feed.
fn write_ids(rt: &impl Print, row: &[u32]) -> io::Result<()> {
    let ids = row.iter().take_while(|id| **id != TokenId::NONE);
    for (i, id) in ids.enumerate() {
        if i > 0 {
            print!(rt; " ")?;
        }
        print!(rt; "{id}")?;
    }
    println!(rt)
}
