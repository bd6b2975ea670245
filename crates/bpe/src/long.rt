// Rows above 32 ids: links in two lent rows, and a heap of entries in a third.
ghost use Rattle.std.specs.Prelude.{◌≡◌, ◌*◌, ◌≤◌, ◌<◌, length};
ghost use Rattle.token.specs.Limits.{most_row};
ghost use Rattle.pairs.specs.Rank.{rank_of};
ghost use Rattle.bpe.specs.Look.{look_in};
ghost use Rattle.bpe.specs.Links.{Stays};
ghost use Rattle.bpe.specs.Long.{Room, Offered, Requeued, Ready, Turned, Going, Drained, Seeded, Stay, MergedWith};

use crate::heap::{Entry, Heap};
use crate::links::{Links, compact};
use token::TokenId;

// Queues the pair of the places `left` and `right`, if it has a rule. Here and in `turn` a rank is a number with none among them: `Offered` and `Turned` speak
// of `rank_of`, and an entry holds it so. Casts between u32 and usize are by `as`: there is no From.
fn offer(slots: &[u64], row: &[u32], heap: &mut Heap, left: usize, right: usize)
    requires { (length row.now ≤ most_row) × (left < length row.now) × (right < length row.now) × (heap.old.len < length heap.old.words.now) }
    ensures words { Stays heap.old.words heap.new.words }
    ensures offered { Offered (rank_of slots.now) row.now heap.old left right heap.new }
{
    let merged = pairs::rank_or_none(slots, row[left], row[right]);
    if merged != TokenId::NONE {
        let place = left as u32;
        heap.push(Entry { merged, place });
    }
}

// Queues the pairs that the place `at` is in now.
fn requeue(slots: &[u64], row: &[u32], links: &Links, heap: &mut Heap, at: usize)
    requires { Ready row.now links.now heap.old at }
    ensures words { Stays heap.old.words heap.new.words }
    ensures requeued { Requeued (rank_of slots.now) row.now links.now heap.old at heap.new }
{
    if let Some(left) = links.prev_of(at) {
        offer(slots, row, heap, left, at);
    }
    if let Some(right) = links.next_of(at) {
        offer(slots, row, heap, at, right);
    }
}

// One popped entry: it is dropped if it is stale, and its pair is merged if not.
fn turn(slots: &[u64], row: &mut [u32], links: &mut Links, heap: &mut Heap, entry: Entry)
    requires { Ready row.old links.old heap.old entry.place }
    ensures rows { Stay links.old heap.old links.new heap.new }
    ensures turned { Turned (rank_of slots.now) (rank_of slots.now) row.old links.old heap.old entry row.new links.new heap.new }
{
    let at = entry.place as usize;
    let Some(right) = links.next_of(at) else {
        return;
    };
    if pairs::rank_or_none(slots, row[at], row[right]) != entry.merged {
        return;
    }
    row[at] = entry.merged;
    links.unlink(at, right);
    requeue(slots, row, links, heap, at);
}

// Merges until the heap is empty. A rule of the project has `let .. else` leave the run.
fn drain(slots: &[u64], row: &mut [u32], links: &mut Links, heap: &mut Heap)
    requires { Going (rank_of slots.now) (rank_of slots.now) row.old row.old links.old heap.old }
    ensures rows { Stay links.old heap.old links.new heap.new }
    ensures drained { Drained (rank_of slots.now) (rank_of slots.now) row.old row.new links.new }
{
    loop {
        let Some(entry) = heap.pop() else {
            break;
        };
        turn(slots, row, links, heap, entry);
    }
}

// Queues every pair of the row that has a rule.
fn seed(slots: &[u64], row: &[u32], heap: &mut Heap)
    requires { (2 ≤ length row.now) × (length row.now ≤ most_row) × (2 * length row.now ≤ length heap.old.words.now) × (heap.old.len ≡ 0) }
    ensures words { Stays heap.old.words heap.new.words }
    ensures seeded { Seeded (rank_of slots.now) row.now heap.new }
{
    for i in 1..row.len() {
        offer(slots, row, heap, i - 1, i);
    }
}

// Merges a row of 2 ids or more.
pub fn bpe_merge_symbols_long(
    slots: &[u64],
    row: &mut [u32],
    next: &mut [u32],
    prev: &mut [u32],
    heap: &mut [u64],
) -> usize
    requires { Room (length row.old) row.old next.old prev.old heap.old }
    ensures { MergedWith (length row.old) (look_in (rank_of slots.now)) row.old next.old prev.old heap.old result
        row.new next.new prev.new heap.new }
{
    let n = row.len();
    let mut links = Links::new(&mut next[..n], &mut prev[..n]);
    let mut queue = Heap::new(&mut heap[..2 * n]);
    seed(slots, row, &mut queue);
    drain(slots, row, &mut links, &mut queue);
    let count = compact(row, |place| links.next_of(place));
    next[..n].fill(0);
    prev[..n].fill(0);
    heap[..2 * n].fill(0);
    count
}
