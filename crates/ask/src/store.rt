// The rows, each under its name. They hold numbers of 64 bits; bytes and ids are copies.

use crate::bad::Bad;
use std::alloc::Global;
use std::collections::BTreeMap;

#[derive(Drop)]
pub struct Store {
    alloc: Global,
    rows: BTreeMap<String, Vec<u64>>,
}

impl Store {
    pub fn new(alloc: Global) -> Self {
        Store {
            alloc,
            rows: BTreeMap::new(alloc),
        }
    }

    pub fn alloc(&self) -> Global {
        self.alloc
    }

    pub fn put(&mut self, name: &str, row: Vec<u64>) -> Result<(), Bad> {
        let name = String::from_str(self.alloc, name)?;
        self.rows.insert(name, row)?;
        Ok(())
    }

    pub fn row(&self, name: &str) -> Result<&[u64], Bad> {
        match self.rows.get(name) {
            Some(row) => Ok(row.as_slice()),
            None => Err(Bad::NoRow),
        }
    }

    pub fn row_mut(&mut self, name: &str) -> Result<&mut [u64], Bad> {
        match self.rows.get_mut(name) {
            Some(row) => Ok(row.as_mut_slice()),
            None => Err(Bad::NoRow),
        }
    }

    pub fn copy(&self, name: &str) -> Result<Vec<u64>, Bad> {
        Ok(self.row(name)?.to_vec(self.alloc)?)
    }

    pub fn ids(&self, name: &str) -> Result<Vec<u32>, Bad> {
        self.row(name)?
            .iter()
            .map(|x| u32::try_from(*x).map_err(|_| Bad::TooLarge))
            .try_collect(self.alloc)
    }

    pub fn bytes(&self, name: &str) -> Result<Vec<u8>, Bad> {
        self.row(name)?
            .iter()
            .map(|x| u8::try_from(*x).map_err(|_| Bad::TooLarge))
            .try_collect(self.alloc)
    }

    // Writes a copy back.
    pub fn write(&mut self, name: &str, copy: &[u64]) -> Result<(), Bad> {
        for (place, x) in self.row_mut(name)?.iter_mut().zip(copy) {
            *place = *x;
        }
        Ok(())
    }

    pub fn write_ids(&mut self, name: &str, ids: &[u32]) -> Result<(), Bad> {
        for (place, id) in self.row_mut(name)?.iter_mut().zip(ids) {
            *place = u64::from(*id);
        }
        Ok(())
    }
}
