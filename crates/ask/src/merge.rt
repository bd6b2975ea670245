// The calls that merge a row.

use crate::answer::Answer;
use crate::bad::Bad;
use crate::store::Store;
use crate::words::{self, Words};

// The names of the rows that a merge is lent to write.
#[derive(Clone, Copy)]
struct Names<'a> {
    row: &'a str,
    next: &'a str,
    prev: &'a str,
    heap: &'a str,
}

impl<'a> Names<'a> {
    fn read(words: &mut Words<'a>) -> Result<Self, Bad> {
        Ok(Names {
            row: words.name()?,
            next: words.name()?,
            prev: words.name()?,
            heap: words.name()?,
        })
    }
}

// Copies of these rows.
#[derive(Drop)]
struct Lent {
    row: Vec<u32>,
    next: Vec<u32>,
    prev: Vec<u32>,
    heap: Vec<u64>,
}

impl Lent {
    fn new(store: &Store, names: Names<'_>) -> Result<Self, Bad> {
        Ok(Lent {
            row: store.ids(names.row)?,
            next: store.ids(names.next)?,
            prev: store.ids(names.prev)?,
            heap: store.copy(names.heap)?,
        })
    }

    fn write(&self, store: &mut Store, names: Names<'_>) -> Result<(), Bad> {
        store.write_ids(names.row, &self.row)?;
        store.write_ids(names.next, &self.next)?;
        store.write_ids(names.prev, &self.prev)?;
        store.write(names.heap, &self.heap)
    }
}

pub fn merge(store: &mut Store, mut words: Words<'_>, answer: &mut Answer) -> Result<(), Bad> {
    let slots = words.name()?;
    let names = Names::read(&mut words)?;
    words.end()?;
    let Names {
        row,
        next,
        prev,
        heap,
    } = names;
    words::distinct(&[slots, row, next, prev, heap])?;
    let mut lent = Lent::new(store, names)?;
    let count = bpe::bpe_merge_symbols_by_rank(
        store.row(slots)?,
        &mut lent.row,
        &mut lent.next,
        &mut lent.prev,
        &mut lent.heap,
    );
    lent.write(store, names)?;
    answer.gives(count)?;
    answer.written(store, &[row, next, prev, heap])
}

pub fn merge_bytes(
    store: &mut Store,
    mut words: Words<'_>,
    answer: &mut Answer,
) -> Result<(), Bad> {
    let slots = words.name()?;
    let map = words.name()?;
    let bytes = words.name()?;
    let names = Names::read(&mut words)?;
    words.end()?;
    let Names {
        row,
        next,
        prev,
        heap,
    } = names;
    words::distinct(&[slots, map, bytes, row, next, prev, heap])?;
    let mut lent = Lent::new(store, names)?;
    let count = bpe::simple_bpe_merge(
        store.row(slots)?,
        &store.ids(map)?,
        &store.bytes(bytes)?,
        &mut lent.row,
        &mut lent.next,
        &mut lent.prev,
        &mut lent.heap,
    );
    lent.write(store, names)?;
    answer.gives(count)?;
    answer.written(store, &[row, next, prev, heap])
}
