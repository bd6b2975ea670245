// Making and showing rows.

use crate::answer::Answer;
use crate::bad::Bad;
use crate::store::Store;
use crate::words::{self, Words};

// The most numbers of a row.
const MOST: usize = 33554432;

// An item of a row: so many copies of a number.
#[derive(Clone, Copy)]
struct Item {
    count: usize,
    number: u64,
}

impl Item {
    fn parse(word: &str) -> Result<Self, Bad> {
        let (count, number) = match word.split_once('*') {
            Some((count, number)) => (words::index(count)?, number),
            None => (1, word),
        };
        Ok(Item {
            count,
            number: words::number(number)?,
        })
    }

    fn add_to(self, row: &mut Vec<u64>) -> Result<(), Bad> {
        let length = row.len().saturating_add(self.count);
        if length > MOST {
            return Err(Bad::RowTooLong);
        }
        row.resize(length, self.number)?;
        Ok(())
    }
}

pub fn row(store: &mut Store, mut words: Words<'_>, answer: &mut Answer) -> Result<(), Bad> {
    let name = words.name()?;
    let mut row = Vec::new(store.alloc());
    for word in words.rest() {
        Item::parse(word)?.add_to(&mut row)?;
    }
    let length = row.len();
    store.put(name, row)?;
    answer.made(name, length)
}

pub fn show(store: &Store, mut words: Words<'_>, answer: &mut Answer) -> Result<(), Bad> {
    let name = words.name()?;
    words.end()?;
    answer.shown(name, store.row(name)?)
}

pub fn sum(store: &Store, mut words: Words<'_>, answer: &mut Answer) -> Result<(), Bad> {
    let name = words.name()?;
    words.end()?;
    answer.summed(name, store.row(name)?)
}
