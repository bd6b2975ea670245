// The calls on ids, numbers and bytes.

use crate::answer::{Answer, OrNone, YesNo};
use crate::bad::Bad;
use crate::store::Store;
use crate::words::{self, Words};
use remap::ByteRemapping;
use token::TokenId;

pub fn new(mut words: Words<'_>, answer: &mut Answer) -> Result<(), Bad> {
    let n = words.id()?;
    words.end()?;
    answer.gives(Ok(TokenId::new(n).0))
}

pub fn none(words: Words<'_>, answer: &mut Answer) -> Result<(), Bad> {
    words.end()?;
    answer.gives(Ok(TokenId::none().0))
}

pub fn fits(mut words: Words<'_>, answer: &mut Answer) -> Result<(), Bad> {
    let n = words.id()?;
    words.end()?;
    answer.gives(Ok(YesNo(TokenId::new(n).fits())))
}

pub fn first_too_large(
    store: &Store,
    mut words: Words<'_>,
    answer: &mut Answer,
) -> Result<(), Bad> {
    let row = words.name()?;
    words.end()?;
    let at = token::first_too_large(&store.ids(row)?);
    answer.gives(Ok(OrNone(at)))
}

pub fn is_power_within(mut words: Words<'_>, answer: &mut Answer) -> Result<(), Bad> {
    let n = words.index()?;
    let least = words.index()?;
    let most = words.index()?;
    words.end()?;
    answer.gives(Ok(YesNo(token::is_power_within(n, least, most))))
}

pub fn low_product(mut words: Words<'_>, answer: &mut Answer) -> Result<(), Bad> {
    let a = words.number()?;
    let b = words.number()?;
    words.end()?;
    answer.gives(Ok(token::low_product(a, b)))
}

pub fn is_valid_utf8_byte(mut words: Words<'_>, answer: &mut Answer) -> Result<(), Bad> {
    let b = words.byte()?;
    words.end()?;
    answer.gives(Ok(YesNo(remap::is_valid_utf8_byte(b))))
}

// The map is answered in a row of its own, which need not be there before.
pub fn from_byte_vocab(
    store: &mut Store,
    mut words: Words<'_>,
    answer: &mut Answer,
) -> Result<(), Bad> {
    let bytes = words.name()?;
    let ends = words.name()?;
    let map = words.name()?;
    words.end()?;
    words::distinct(&[bytes, ends, map])?;
    let remapped = ByteRemapping::from_byte_vocab(&store.bytes(bytes)?, &store.ids(ends)?);
    let ids = remapped.map.mapping;
    let row = ids.iter().map(|id| u64::from(*id)).collect(store.alloc())?;
    store.put(map, row)?;
    answer.gives(remapped.verdict.map(|_| YesNo(remapped.differs)))?;
    answer.written(store, &[map])
}
