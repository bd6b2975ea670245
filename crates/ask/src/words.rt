// The words of a line, which are taken one by one.

use crate::bad::Bad;
use std::str::Split;

#[derive(Drop)]
pub struct Words<'a> {
    words: Split<'a, char>,
}

impl<'a> Words<'a> {
    pub fn new(line: &'a str) -> Self {
        Words {
            words: line.split(' '),
        }
    }

    // The words that are left.
    pub fn rest(self) -> Split<'a, char> {
        let Words { words } = self;
        words
    }

    pub fn word(&mut self) -> Result<&'a str, Bad> {
        self.words.next().ok_or(Bad::WordMissing)
    }

    pub fn name(&mut self) -> Result<&'a str, Bad> {
        let word = self.word()?;
        if word.is_empty() || !word.bytes().all(of_name) {
            return Err(Bad::NotName);
        }
        Ok(word)
    }

    pub fn number(&mut self) -> Result<u64, Bad> {
        number(self.word()?)
    }

    pub fn index(&mut self) -> Result<usize, Bad> {
        index(self.word()?)
    }

    // A number of 32 bits.
    pub fn id(&mut self) -> Result<u32, Bad> {
        u32::try_from(self.number()?).map_err(|_| Bad::TooLarge)
    }

    pub fn byte(&mut self) -> Result<u8, Bad> {
        u8::try_from(self.number()?).map_err(|_| Bad::TooLarge)
    }

    // No word may be left.
    pub fn end(mut self) -> Result<(), Bad> {
        match self.words.next() {
            Some(_) => Err(Bad::WordLeft),
            None => Ok(()),
        }
    }
}

fn of_name(b: u8) -> bool {
    b.is_ascii_lowercase() || b.is_ascii_digit()
}

// No two of the names may be alike.
pub fn distinct(names: &[&str]) -> Result<(), Bad> {
    for (i, name) in names.iter().enumerate() {
        if names.iter().take(i).any(|before| before == name) {
            return Err(Bad::SameRow);
        }
    }
    Ok(())
}

// Digits alone: `parse` would also take a sign.
pub fn number(word: &str) -> Result<u64, Bad> {
    if word.is_empty() || !word.bytes().all(|b| b.is_ascii_digit()) {
        return Err(Bad::NotNumber);
    }
    word.parse::<u64>().map_err(|_| Bad::TooLarge)
}

pub fn index(word: &str) -> Result<usize, Bad> {
    usize::try_from(number(word)?).map_err(|_| Bad::TooLarge)
}
