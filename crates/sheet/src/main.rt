// The bench sheet, through the real calls: what each row gives stands in the file stdout.
#![tactic(auto)]

ghost use Rattle.std.specs.Prelude.{◌≡◌, ◌*◌, ◌≤◌, length};
ghost use Rattle.sheet.specs.Limits.{most_given};

use pairs::PairRankTable;
use pretoken_cache::{Name, ShortPretokenCache, Value};
use std::io::{ErrorKind, Print};
use std::{array, io};
use token::{Refusal, TokenId};

// An id that no rule of the sheet has: it makes a short row long.
const FILLER: u32 = 99;

// The longest row of the sheet, and one that is made long.
const MOST: usize = 33;

const LONG: usize = 66;

// List A.
const A: [u32; 18] = [1, 2, 10, 2, 3, 9, 1, 9, 12, 10, 3, 11, 5, 5, 8, 8, 5, 7];

// A write that fails ends it with the error as std writes it. No list of the sheet is refused where it is built for a row.
fn main(rt: HostRuntime) -> io::Result<()> {
    table_rows(&rt)?;
    size_rows(&rt)?;
    pair_rows(&rt)?;
    short_rows(&rt)?;
    longer_lists(&rt)?;
    fives(&rt)?;
    cache_rows(&rt)
}

// ---- the pair table

// A rule stands alone in a table of 64 slots: where, and as what word.
fn table_rows(rt: &impl Print) -> io::Result<()> {
    stored(rt, 1, 2, 10)?;
    stored(rt, 0, 0, 1)?;
    stored(rt, 0, 1, 1)?;
    stored(rt, 0, 2, 1)
}

fn stored(rt: &impl Print, a: u32, b: u32, m: u32) -> io::Result<()> {
    let mut slots = [0; 64];
    pairs::build(&[a, b, m], TokenId::VOCAB_MAX, &mut slots).map_err(|_| ErrorKind::InvalidInput)?;
    let taken = slots
        .iter()
        .enumerate()
        .find(|(_, slot)| **slot != PairRankTable::EMPTY);
    if let Some((home, slot)) = taken {
        println!(rt; "rule {a} {b} to {m}: home {home}, slot {slot}")?;
    }
    Ok(())
}

// How many slots so many rules want.
fn size_rows(rt: &impl Print) -> io::Result<()> {
    // 33 rules: (i, 0) to 1
    let list: [u32; 99] = array::from_fn(|k| match k % 3 {
        0 => (k / 3) as u32,
        1 => 0,
        _ => 1,
    });
    sized(rt, &list, 0, &mut [0; 64])?;
    sized(rt, &list, 32, &mut [0; 64])?;
    sized(rt, &list, 33, &mut [0; 64])?;
    sized(rt, &list, 33, &mut [0; 128])?;
    sized(rt, &list, 32, &mut [0; 128])
}

// The first rules of the list, into the slots.
fn sized(rt: &impl Print, list: &[u32], rules: usize, slots: &mut [u64]) -> io::Result<()>
    requires { 3 * rules ≤ length list.now }
{
    let n = slots.len();
    print!(rt; "{rules} rules in {n} slots: ")?;
    match pairs::build(&list[..3 * rules], TokenId::VOCAB_MAX, slots) {
        Ok(()) => println!(rt; "done"),
        Err(why) => println!(rt; "{why}"),
    }
}

// Pairs that are looked up under list A, among them the two that the Rust answers.
fn pair_rows(rt: &impl Print) -> io::Result<()> {
    let mut slots = [0; 64];
    pairs::build(&A, TokenId::VOCAB_MAX, &mut slots).map_err(|_| ErrorKind::InvalidInput)?;
    asked(rt, &slots, 8, 5)?;
    asked(rt, &slots, 5, 8)?;
    asked(rt, &slots, 0, 2097157)?;
    asked(rt, &slots, 4194303, 2097151)
}

fn asked(rt: &impl Print, slots: &[u64], a: u32, b: u32) -> io::Result<()> {
    print!(rt; "pair {a} {b}: ")?;
    match pairs::rank(slots, a, b) {
        Ok(Some(m)) => println!(rt; "{m}"),
        Ok(None) => println!(rt; "none"),
        Err(why) => println!(rt; "{why}"),
    }
}

// ---- merging

fn short_rows(rt: &impl Print) -> io::Result<()> {
    let rows: [&[u32]; 8] = [
        &[],
        &[7],
        &[1, 2],
        &[1, 2, 3],
        &[5, 5, 5],
        &[5, 5, 5, 5],
        &[1, 2, 1, 2],
        &[4, 6],
    ];
    for row in rows {
        row_under(rt, &A, "A", row)?;
    }
    Ok(())
}

fn longer_lists(rt: &impl Print) -> io::Result<()> {
    row_under(rt, &a_and([12, 5, 20]), "A and 12 5 to 20", &[1, 2, 3, 5])?;
    row_under(rt, &A, "A", &[1, 2, 3, 5])?;
    row_under(rt, &a_and([3, 5, 6]), "A and 3 5 to 6", &[1, 2, 3, 5])?;
    row_under(rt, &a_and([3, 1, 12]), "A and 3 1 to 12", &[3, 1, 9])?;
    row_under(rt, &A, "A", &[3, 1, 9])
}

// List A with a rule behind it.
fn a_and(rule: [u32; 3]) -> [u32; 21] {
    let mut list = [0; 21];
    list[..18].copy_from_slice(&A);
    list[18..].copy_from_slice(&rule);
    list
}

fn fives(rt: &impl Print) -> io::Result<()> {
    row_under(rt, &A, "A", &[5; 32])?;
    row_under(rt, &A, "A", &[5; MOST])
}

// The row by itself, and with fillers behind it, so that it is long.
fn row_under(rt: &impl Print, list: &[u32], name: &str, given: &[u32]) -> io::Result<()> {
    let mut slots = [0; 64];
    pairs::build(list, TokenId::VOCAB_MAX, &mut slots).map_err(|_| ErrorKind::InvalidInput)?;
    print!(rt; "{name}:")?;
    ids(rt, given)?;
    print!(rt; " gives")?;
    merged(rt, &slots, given, 0)?;
    print!(rt; "; long, it gives")?;
    merged(rt, &slots, given, MOST)?;
    println!(rt)
}

// Merges up to 33 given ids with so many fillers behind them, and writes the answer up to the fillers.
fn merged(rt: &impl Print, slots: &[u64], given: &[u32], fillers: usize) -> io::Result<()>
    requires { fillers ≤ most_given }
{
    let n = given.len().min(MOST);
    let mut row = [FILLER; LONG];
    row[..n].copy_from_slice(&given[..n]);
    let row = &mut row[..n + fillers];
    match merge(slots, row) {
        Ok(_) => ids(rt, row),
        Err(why) => print!(rt; " {why}"),
    }
}

// Merges a row, long or not.
fn merge(slots: &[u64], row: &mut [u32]) -> Result<usize, Refusal> {
    let mut next = [0; LONG];
    let mut prev = [0; LONG];
    let mut heap = [0; 2 * LONG];
    bpe::bpe_merge_symbols_by_rank(slots, row, &mut next, &mut prev, &mut heap)
}

// The ids up to the first filler or none.
fn ids(rt: &impl Print, row: &[u32]) -> io::Result<()> {
    for id in row {
        if matches!(*id, FILLER | TokenId::NONE) {
            break;
        }
        print!(rt; " {id}")?;
    }
    Ok(())
}

// ---- the cache

fn cache_rows(rt: &impl Print) -> io::Result<()> {
    print!(rt; "cache of 2 slots, second new name: ")?;
    last_of(rt, &mut [0; 2 * ShortPretokenCache::WIDTH], 2)?;
    print!(rt; "cache of 4 slots, fourth new name: ")?;
    last_of(rt, &mut [0; 4 * ShortPretokenCache::WIDTH], 4)?;
    capacity(rt, 49151)?;
    capacity(rt, 49152)
}

// Stores so many new names, and writes what the last one gave. The names differ in their keys and share one home.
fn last_of(rt: &impl Print, words: &mut [u64], names: u64) -> io::Result<()> {
    let mut cache = ShortPretokenCache::new();
    let mut last = Ok(cache);
    for key in 1..=names {
        let name = Name {
            high: 0,
            low: key,
            h: 7,
        };
        last = cache.insert(words, name, Value { val: key, ext: 0 });
        cache = last.unwrap_or(cache);
    }
    match last {
        Ok(_) => println!(rt; "done"),
        Err(why) => println!(rt; "{why}"),
    }
}

fn capacity(rt: &impl Print, n: usize) -> io::Result<()> {
    print!(rt; "capacity for {n} entries: ")?;
    match ShortPretokenCache::required_capacity(n, 0) {
        Ok(slots) => println!(rt; "{slots}"),
        Err(why) => println!(rt; "{why}"),
    }
}
