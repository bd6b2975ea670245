// Merging a row of ids over a pair table: `bpe_merge_symbols_by_rank`, and for bytes `simple_bpe_merge`. specs/Calls.antt says what both promise.
#![tactic(auto)]

ghost use Rattle.std.specs.Prelude.{◌≡◌, ◌++◌, ◌≤◌, length, drop};
ghost use Rattle.token.specs.Ids.{first_too_large, index_in};
ghost use Rattle.pairs.specs.Rank.{rank_of};
ghost use Rattle.bpe.specs.Limits.{map_length};
ghost use Rattle.bpe.specs.Calls.{unfit as is_unfit, through, used, MergesRow, MergesBytes};
ghost use Rattle.bpe.specs.Look.{look_in};
ghost use Rattle.bpe.specs.Long.{Fit, MergedWith};

use token::{Refusal, TokenId};

mod heap;
mod links;
mod long;
mod small;

// Rows up to this length are merged by a scan of ranks, longer ones with a heap.
pub const SMALL_MERGE_MAX: usize = 32;

// A byte map has an id for each byte.
pub const BYTE_MAP_LEN: usize = 256;

// Is the table or the scratch of the wrong shape for n ids? The arguments are lengths.
fn unfit(slots: usize, n: usize, next: usize, prev: usize, heap: usize) -> bool
    ensures { result ≡ is_unfit slots n next prev heap }
{
    !pairs::shaped(slots) || (n > SMALL_MERGE_MAX && (next < n || prev < n || heap / 2 < n))
}

// Merges a row of ids by the path that its length takes. The table and each row of scratch are parameters of their own: the public calls lend each by itself,
// and `MergesRow` says of each what it holds at the end. Table and row are two below here too: one is only read, and together they would be taken apart at
// every call.
fn merge_row(
    slots: &[u64],
    row: &mut [u32],
    next: &mut [u32],
    prev: &mut [u32],
    heap: &mut [u64],
) -> usize
    requires { Fit row.old next.old prev.old heap.old }
    ensures { MergedWith (used (length row.old)) (look_in (rank_of slots.now)) row.old next.old prev.old heap.old result
        row.new next.new prev.new heap.new }
{
    let n = row.len();
    if n < 2 {
        return n;
    }
    if n <= SMALL_MERGE_MAX {
        return small::bpe_merge_symbols_small(slots, row);
    }
    long::bpe_merge_symbols_long(slots, row, next, prev, heap)
}

// Merges a lent row of ids in place, over the lent slots of a pair table. How many ids the answer has comes back. Rows above 32 ids want
// scratch: two rows of as many places, and one of twice as many words. The answer goes to the front and none behind it; scratch that was
// used ends zero. Refuses 1, 2 and 3.
pub fn bpe_merge_symbols_by_rank(
    slots: &[u64],
    row: &mut [u32],
    next: &mut [u32],
    prev: &mut [u32],
    heap: &mut [u64],
) -> Result<usize, Refusal>
    ensures { MergesRow slots.now row.old next.old prev.old heap.old result
        row.new next.new prev.new heap.new }
{
    let n = row.len();
    if n > TokenId::ROW_MAX {
        return Err(Refusal::CountTooLarge);
    }
    if unfit(slots.len(), n, next.len(), prev.len(), heap.len()) {
        return Err(Refusal::WrongShape);
    }
    if let Some(at) = token::first_too_large(row) {
        return Err(Refusal::IdTooLarge(at));
    }
    Ok(merge_row(slots, row, next, prev, heap))
}

// The place of the first byte whose id is too large. It is not `token::first_too_large`: that reads a
// row, and the ids of the bytes may stand in none before they are tested, since `MergesBytes` keeps the row on a refusal.
fn first_large_byte(map: &[u32], bytes: &[u8]) -> Option<usize>
    requires { length map.now ≡ map_length }
    ensures { result ≡ index_in (through map.now bytes.now) (first_too_large (through map.now bytes.now)) }
{
    bytes
        .iter()
        .position(|b| map[usize::from(*b)] > TokenId::MAX)
}

// Writes the ids of the bytes to the row.
fn map_bytes(map: &[u32], bytes: &[u8], row: &mut [u32])
    requires { (length map.now ≡ map_length) × (length row.old ≡ length bytes.now) }
    ensures { row.new ≡ through map.now bytes.now }
{
    for (i, b) in bytes.iter().enumerate() {
        row[i] = map[usize::from(*b)];
    }
}

// Fills a row of exactly as many places as there are bytes through a lent map of 256 ids, and merges it. Refuses 1, 2 and 3, before it writes.
pub fn simple_bpe_merge(
    slots: &[u64],
    map: &[u32],
    bytes: &[u8],
    row: &mut [u32],
    next: &mut [u32],
    prev: &mut [u32],
    heap: &mut [u64],
) -> Result<usize, Refusal>
    ensures { MergesBytes slots.now map.now bytes.now row.old next.old prev.old heap.old result
        row.new next.new prev.new heap.new }
{
    let n = bytes.len();
    if n > TokenId::ROW_MAX {
        return Err(Refusal::CountTooLarge);
    }
    if row.len() > TokenId::ROW_MAX {
        return Err(Refusal::CountTooLarge);
    }
    if row.len() != n {
        return Err(Refusal::WrongShape);
    }
    if map.len() != BYTE_MAP_LEN {
        return Err(Refusal::WrongShape);
    }
    if unfit(slots.len(), n, next.len(), prev.len(), heap.len()) {
        return Err(Refusal::WrongShape);
    }
    if let Some(at) = first_large_byte(map, bytes) {
        return Err(Refusal::IdTooLarge(at));
    }
    map_bytes(map, bytes, row);
    Ok(merge_row(slots, row, next, prev, heap))
}
