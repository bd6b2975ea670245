// The line that answers a command, as it is put together.

use crate::bad::Bad;
use crate::store::Store;
use std::alloc::Global;
use std::fmt;
use token::Refusal;

// A sum starts here, and each number is mixed in by a product with the factor.
const SUM_START: u64 = 14695981039346656037;

const SUM_FACTOR: u64 = 1099511628211;

#[derive(Drop)]
pub struct Answer {
    text: String,
}

impl Answer {
    pub fn new(alloc: Global) -> Self {
        Answer {
            text: String::new(alloc),
        }
    }

    pub fn clear(&mut self) {
        self.text.clear();
    }

    pub fn text(&self) -> &str {
        self.text.as_str()
    }

    // What a call that gives values answered.
    pub fn gives<T: fmt::Display + Drop>(
        &mut self,
        outcome: Result<T, Refusal>,
    ) -> Result<(), Bad> {
        match outcome {
            Ok(values) => write!(self.text, "ok {values}")?,
            Err(why) => self.refused(why)?,
        }
        Ok(())
    }

    // What a call that gives none answered.
    pub fn done(&mut self, outcome: Result<(), Refusal>) -> Result<(), Bad> {
        match outcome {
            Ok(()) => self.text.push_str("ok")?,
            Err(why) => self.refused(why)?,
        }
        Ok(())
    }

    fn refused(&mut self, why: Refusal) -> Result<(), Bad> {
        let number = why.number();
        let place = why.place();
        write!(self.text, "refused {number} {place}")?;
        Ok(())
    }

    // The rows that a call was lent to write, as they are after it.
    pub fn written(&mut self, store: &Store, names: &[&str]) -> Result<(), Bad> {
        for name in names {
            self.text.push_str(" | ")?;
            self.summed(name, store.row(name)?)?;
        }
        Ok(())
    }

    pub fn summed(&mut self, name: &str, row: &[u64]) -> Result<(), Bad> {
        let length = row.len();
        let sum = sum_of(row);
        write!(self.text, "{name} {length} {sum}")?;
        Ok(())
    }

    pub fn made(&mut self, name: &str, length: usize) -> Result<(), Bad> {
        write!(self.text, "row {name} {length}")?;
        Ok(())
    }

    // The whole row, each longest run of equal numbers as one item.
    pub fn shown(&mut self, name: &str, row: &[u64]) -> Result<(), Bad> {
        let length = row.len();
        write!(self.text, "{name} {length}")?;
        for run in row.chunk_by(|a, b| a == b) {
            self.shown_run(run)?;
        }
        Ok(())
    }

    fn shown_run(&mut self, run: &[u64]) -> Result<(), Bad> {
        let count = run.len();
        if let Some(x) = run.first() {
            if count == 1 {
                write!(self.text, " {x}")?;
            } else {
                write!(self.text, " {count}*{x}")?;
            }
        }
        Ok(())
    }
}

fn sum_of(row: &[u64]) -> u64 {
    row.iter()
        .fold(SUM_START, |sum, x| (sum ^ *x).wrapping_mul(SUM_FACTOR))
}

// A flag in words.
#[derive(Clone, Copy)]
pub struct YesNo(pub bool);

impl fmt::Display for YesNo {
    fn fmt<W: fmt::Write>(&self, f: &mut fmt::Formatter<W>) -> fmt::Result {
        f.write_str(if self.0 { "yes" } else { "no" })
    }
}

// What there is, or none.
#[derive(Clone, Copy)]
pub struct OrNone<T>(pub Option<T>);

impl<T: fmt::Display> fmt::Display for OrNone<T> {
    fn fmt<W: fmt::Write>(&self, f: &mut fmt::Formatter<W>) -> fmt::Result {
        match &self.0 {
            Some(x) => write!(f, "{x}"),
            None => f.write_str("none"),
        }
    }
}
