// The calls on the cache of pretokens.

use crate::answer::Answer;
use crate::bad::Bad;
use crate::store::Store;
use crate::words::{self, Words};
use pretoken_cache::{Got, Name, ProbeView, ShortPretokenCache, Value};
use std::fmt;
use token::Refusal;

// What a look gave, in words.
#[derive(Clone, Copy)]
struct Look(Got);

impl fmt::Display for Look {
    fn fmt<W: fmt::Write>(&self, f: &mut fmt::Formatter<W>) -> fmt::Result {
        match self.0 {
            Got::Found(Value { val, ext }) => write!(f, "found {val} {ext}"),
            Got::Missing(slot) => write!(f, "missing {slot}"),
        }
    }
}

// What a probe gave, in words.
#[derive(Clone, Copy)]
struct Probe(Option<Value>);

impl fmt::Display for Probe {
    fn fmt<W: fmt::Write>(&self, f: &mut fmt::Formatter<W>) -> fmt::Result {
        match self.0 {
            Some(Value { val, ext }) => write!(f, "{val} {ext} yes"),
            None => f.write_str("0 0 no"),
        }
    }
}

fn read_cache(words: &mut Words<'_>) -> Result<ShortPretokenCache, Bad> {
    Ok(ShortPretokenCache {
        len: words.index()?,
    })
}

fn read_name(words: &mut Words<'_>) -> Result<Name, Bad> {
    Ok(Name {
        high: words.number()?,
        low: words.number()?,
        h: words.number()?,
    })
}

fn read_value(words: &mut Words<'_>) -> Result<Value, Bad> {
    Ok(Value {
        val: words.number()?,
        ext: words.number()?,
    })
}

fn counted(answer: &mut Answer, outcome: Result<ShortPretokenCache, Refusal>) -> Result<(), Bad> {
    answer.gives(outcome.map(|cache| cache.len()))
}

pub fn capacity(store: &Store, mut words: Words<'_>, answer: &mut Answer) -> Result<(), Bad> {
    let row = words.name()?;
    words.end()?;
    answer.gives(ShortPretokenCache::capacity(store.row(row)?))
}

pub fn required_capacity(mut words: Words<'_>, answer: &mut Answer) -> Result<(), Bad> {
    let n = words.index()?;
    let min_slots = words.index()?;
    words.end()?;
    answer.gives(ShortPretokenCache::required_capacity(n, min_slots))
}

pub fn with_at_least(
    store: &mut Store,
    mut words: Words<'_>,
    answer: &mut Answer,
) -> Result<(), Bad> {
    let row = words.name()?;
    let n = words.index()?;
    let min_slots = words.index()?;
    words.end()?;
    let made = ShortPretokenCache::with_at_least(store.row_mut(row)?, n, min_slots);
    counted(answer, made)?;
    answer.written(store, &[row])
}

pub fn clear(store: &mut Store, mut words: Words<'_>, answer: &mut Answer) -> Result<(), Bad> {
    let cache = read_cache(&mut words)?;
    let row = words.name()?;
    words.end()?;
    counted(answer, cache.clear(store.row_mut(row)?))?;
    answer.written(store, &[row])
}

pub fn reset_to_capacity(
    store: &mut Store,
    mut words: Words<'_>,
    answer: &mut Answer,
) -> Result<(), Bad> {
    let cache = read_cache(&mut words)?;
    let row = words.name()?;
    let cap = words.index()?;
    words.end()?;
    counted(answer, cache.reset_to_capacity(store.row_mut(row)?, cap))?;
    answer.written(store, &[row])
}

pub fn get_or_slot(store: &Store, mut words: Words<'_>, answer: &mut Answer) -> Result<(), Bad> {
    let cache = read_cache(&mut words)?;
    let row = words.name()?;
    let name = read_name(&mut words)?;
    words.end()?;
    answer.gives(cache.get_or_slot(store.row(row)?, name).map(Look))
}

pub fn insert(store: &mut Store, mut words: Words<'_>, answer: &mut Answer) -> Result<(), Bad> {
    let cache = read_cache(&mut words)?;
    let row = words.name()?;
    let name = read_name(&mut words)?;
    let value = read_value(&mut words)?;
    words.end()?;
    counted(answer, cache.insert(store.row_mut(row)?, name, value))?;
    answer.written(store, &[row])
}

pub fn insert_at(store: &mut Store, mut words: Words<'_>, answer: &mut Answer) -> Result<(), Bad> {
    let cache = read_cache(&mut words)?;
    let row = words.name()?;
    let slot = words.index()?;
    let name = read_name(&mut words)?;
    let value = read_value(&mut words)?;
    words.end()?;
    let placed = cache.insert_at(store.row_mut(row)?, slot, name, value);
    counted(answer, placed)?;
    answer.written(store, &[row])
}

pub fn replace(store: &mut Store, mut words: Words<'_>, answer: &mut Answer) -> Result<(), Bad> {
    let cache = read_cache(&mut words)?;
    let row = words.name()?;
    let name = read_name(&mut words)?;
    let value = read_value(&mut words)?;
    words.end()?;
    counted(answer, cache.replace(store.row_mut(row)?, name, value))?;
    answer.written(store, &[row])
}

// The smaller table is read only, so the larger one is a copy.
pub fn grow(store: &mut Store, mut words: Words<'_>, answer: &mut Answer) -> Result<(), Bad> {
    let cache = read_cache(&mut words)?;
    let from = words.name()?;
    let into = words.name()?;
    words.end()?;
    words::distinct(&[from, into])?;
    let mut larger = store.copy(into)?;
    let grown = cache.grow(store.row(from)?, &mut larger);
    store.write(into, &larger)?;
    counted(answer, grown)?;
    answer.written(store, &[into])
}

pub fn probe_view(store: &Store, mut words: Words<'_>, answer: &mut Answer) -> Result<(), Bad> {
    let cache = read_cache(&mut words)?;
    let row = words.name()?;
    words.end()?;
    answer.gives(cache.probe_view(store.row(row)?).map(|view| view.pair_mask))
}

pub fn probe_pair(store: &Store, mut words: Words<'_>, answer: &mut Answer) -> Result<(), Bad> {
    let pair_mask = words.index()?;
    let row = words.name()?;
    let name = read_name(&mut words)?;
    words.end()?;
    let view = ProbeView { pair_mask };
    answer.gives(view.probe_pair(store.row(row)?, name).map(Probe))
}
