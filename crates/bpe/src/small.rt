// Rows of 2 to 32 ids: links and ranks in small arrays, which go by value through each merge and come back.
ghost use Rattle.std.specs.Prelude.{◌≡◌, ◌+◌, ◌/◌, ◌^◌, ◌≤◌, ◌<◌, length, get_or};
ghost use Rattle.token.specs.Limits.{no_id};
ghost use Rattle.pairs.specs.Rank.{rank_of};
ghost use Rattle.bpe.specs.Limits.{most_small};
ghost use Rattle.bpe.specs.Look.{look_in};
ghost use Rattle.bpe.specs.Links.{IsPlace};
ghost use Rattle.bpe.specs.Small.{Linked8, Picks, IsPair, Placed, Between, Backed, Reranked, Ready8, Joined8, MergedShort};

use crate::heap::Entry;
use crate::links::compact;
use token::TokenId;

// what stands before the first place
const BEFORE: u8 = 255;

// The next of the last place is the row's length, and so is that of a place that was merged away. A place's rank is that of the pair that
// starts there.
#[derive(Clone, Copy)]
pub struct SmallLinks {
    next: [u8; 32],
    prev: [u8; 32],
    ranks: [u32; 32],
}

// The places of a pair, the one before and the one after. Where there is none of these two, it is a number past the places: they come from arrays of bytes, and
// go back there, by a rule of the project.
#[derive(Clone, Copy)]
pub struct Pair {
    left: usize,
    at: usize,
    right: usize,
    after: usize,
}

impl SmallLinks {
    // Those of a row that is not merged yet. It is not `Links::new`: these are arrays of bytes with ranks beside them, by a rule of the project, and are
    // filled in one pass. Casts are by `as`: a place of 32 fits a byte, and usize has no From to u8.
    fn of(slots: &[u64], row: &[u32]) -> SmallLinks
        requires { (2 ≤ length row.now) × (length row.now ≤ most_small) }
        ensures { Linked8 (rank_of slots.now) row.now result.next result.prev result.ranks }
    {
        let mut l = SmallLinks {
            next: [0; 32],
            prev: [0; 32],
            ranks: [TokenId::NONE; 32],
        };
        l.prev[0] = BEFORE;
        for i in 1..row.len() {
            let before = i - 1;
            l.next[before] = i as u8;
            l.prev[i] = before as u8;
            l.ranks[before] = pairs::rank_or_none(slots, row[before], row[i]);
        }
        let last = row.len() - 1;
        l.next[last] = row.len() as u8;
        l
    }

    // What is next to a place of a row of n ids, if something is.
    fn next_of(&self, n: usize, place: usize) -> Option<usize>
        requires { place < most_small }
        ensures { IsPlace n (get_or self.now.next place 0) result }
    {
        let after = usize::from(self.next[place]);
        if after == n { None } else { Some(after) }
    }

    fn pair_at(&self, at: usize) -> Pair
        requires { (at < most_small) × (get_or self.now.next at 0 < most_small) }
        ensures { (result.at ≡ at) × IsPair self.now.next self.now.prev result }
    {
        let right = usize::from(self.next[at]);
        Pair {
            left: usize::from(self.prev[at]),
            at,
            right,
            after: usize::from(self.next[right]),
        }
    }

    // Puts the merged id in place of the pair, and finds the entry to merge next. The links are copied to this function and back. So what it
    // wants of them was read before, and the next entry is looked for before they go back: a copy of what was stored just now would wait for the stores.
    fn join(
        mut self,
        slots: &[u64],
        row: &mut [u32],
        p: Pair,
        merged: u32,
    ) -> (SmallLinks, Option<Entry>)
        requires { Ready8 row.old self.next self.prev self.ranks p }
        ensures { Joined8 (rank_of slots.now) row.old self.next self.prev self.ranks p merged row.new result.0.next result.0.prev result.0.ranks result.1 }
    {
        let n = row.len();
        self.next[p.at] = p.after as u8;
        self.next[p.right] = n as u8;
        set_prev(&mut self.prev, n, p.after, p.at);
        row[p.at] = merged;
        rerank(slots, row, &mut self.ranks, p);
        let entry = least(&self.ranks, n);
        (self, entry)
    }
}

// The least rank of the first `n` places and its place, leftmost among equals, if one of them has a rank.
fn least(ranks: &[u32; 32], n: usize) -> Option<Entry>
    requires { n ≤ most_small }
    ensures { Picks ranks.now n result }
{
    let mut merged = TokenId::NONE;
    let mut place: usize = 0;
    for (i, rank) in ranks[..n].iter().enumerate() {
        if *rank < merged {
            merged = *rank;
            place = i;
        }
    }
    if merged == TokenId::NONE {
        return None;
    }
    Some(Entry {
        merged,
        place: place as u32,
    })
}

// The rank of the pair of the places `a` and `b`, none where `b` is no place. It is a number: the ranks are an array of plain numbers by a rule of the
// project, and none is the greatest.
fn rank_between(slots: &[u64], row: &[u32], a: usize, b: usize) -> u32
    requires { a < length row.now }
    ensures { Between (rank_of slots.now) row.now a b result }
{
    if row.len() <= b {
        return TokenId::NONE;
    }
    pairs::rank_or_none(slots, row[a], row[b])
}

// `at` is before the place `after` from here on, if that is one.
fn set_prev(prev: &mut [u8; 32], n: usize, after: usize, at: usize)
    requires { (length prev.old ≡ most_small) × (n ≤ most_small) × (at < n) }
    ensures { Backed n prev.old after at prev.new }
{
    if after < n {
        prev[after] = at as u8;
    }
}

// The ranks of the pairs that the place `at` is in now; the place `right` has none.
fn rerank(slots: &[u64], row: &[u32], ranks: &mut [u32; 32], p: Pair)
    requires { (length ranks.old ≡ most_small) × Placed (length row.now) p }
    ensures { Reranked (rank_of slots.now) row.now ranks.old p ranks.new }
{
    ranks[p.right] = TokenId::NONE;
    ranks[p.at] = rank_between(slots, row, p.at, p.after);
    if p.left < row.len() {
        ranks[p.left] = rank_between(slots, row, p.left, p.at);
    }
}

// Merges a row of 2 to 32 ids.
pub fn bpe_merge_symbols_small(slots: &[u64], row: &mut [u32]) -> usize
    requires { (2 ≤ length row.old) × (length row.old ≤ most_small) }
    ensures { MergedShort (look_in (rank_of slots.now)) row.old result row.new }
{
    let n = row.len();
    let mut l = SmallLinks::of(slots, row);
    let mut entry = least(&l.ranks, n);
    while let Some(Entry { merged, place }) = entry {
        let p = l.pair_at(place as usize);
        (l, entry) = l.join(slots, row, p, merged);
    }
    compact(row, |place| l.next_of(n, place))
}
