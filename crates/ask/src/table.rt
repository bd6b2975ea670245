// The calls on the pair table.

use crate::answer::{Answer, OrNone, YesNo};
use crate::bad::Bad;
use crate::store::Store;
use crate::words::{self, Words};
use pairs::PairRankTable;
use std::fmt;
use token::Refusal;

// The two numbers that a table holds beside its slots.
#[derive(Clone, Copy)]
struct MaskShift {
    mask: usize,
    shift: u32,
}

impl fmt::Display for MaskShift {
    fn fmt<W: fmt::Write>(&self, f: &mut fmt::Formatter<W>) -> fmt::Result {
        let mask = self.mask;
        let shift = self.shift;
        write!(f, "{mask} {shift}")
    }
}

pub fn shaped(mut words: Words<'_>, answer: &mut Answer) -> Result<(), Bad> {
    let n = words.index()?;
    words.end()?;
    answer.gives(Ok(YesNo(pairs::shaped(n))))
}

pub fn build(store: &mut Store, mut words: Words<'_>, answer: &mut Answer) -> Result<(), Bad> {
    let list = words.name()?;
    let vocab_len = words.index()?;
    let slots = words.name()?;
    words.end()?;
    words::distinct(&[list, slots])?;
    let list = store.ids(list)?;
    answer.done(pairs::build(&list, vocab_len, store.row_mut(slots)?))?;
    answer.written(store, &[slots])
}

pub fn rank(store: &Store, mut words: Words<'_>, answer: &mut Answer) -> Result<(), Bad> {
    let slots = words.name()?;
    let a = words.id()?;
    let b = words.id()?;
    words.end()?;
    ranked(answer, pairs::rank(store.row(slots)?, a, b))
}

pub fn rank_by_table(store: &Store, mut words: Words<'_>, answer: &mut Answer) -> Result<(), Bad> {
    let slots = words.name()?;
    let a = words.id()?;
    let b = words.id()?;
    words.end()?;
    ranked(answer, pairs::rank_by_table(store.row(slots)?, a, b))
}

fn ranked(answer: &mut Answer, outcome: Result<Option<u32>, Refusal>) -> Result<(), Bad> {
    answer.gives(outcome.map(OrNone))
}

pub fn rank_or_none(store: &Store, mut words: Words<'_>, answer: &mut Answer) -> Result<(), Bad> {
    let slots = words.name()?;
    let a = words.id()?;
    let b = words.id()?;
    words.end()?;
    answer.gives(Ok(pairs::rank_or_none(store.row(slots)?, a, b)))
}

pub fn table(store: &Store, mut words: Words<'_>, answer: &mut Answer) -> Result<(), Bad> {
    let slots = words.name()?;
    words.end()?;
    let table = PairRankTable::new(store.row(slots)?);
    answer.gives(Ok(MaskShift {
        mask: table.mask,
        shift: table.shift,
    }))
}

pub fn table_rank(store: &Store, mut words: Words<'_>, answer: &mut Answer) -> Result<(), Bad> {
    let slots = words.name()?;
    let mask = words.index()?;
    let shift = words.id()?;
    let a = words.id()?;
    let b = words.id()?;
    words.end()?;
    let slots = store.row(slots)?;
    let table = PairRankTable { slots, mask, shift };
    ranked(answer, table.rank(a, b))
}
