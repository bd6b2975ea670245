// The places of a row, linked both ways in two lent rows, and what both paths do at the end.
ghost use Rattle.std.specs.Prelude.{◌≡◌, List, ℕ, ◌≤◌, ◌<◌, length, get_or};
ghost use Rattle.token.specs.Limits.{no_id, most_row};
ghost use Rattle.bpe.specs.Links.{Rises, Backs, Fresh, IsPlace, Cut, Stays, Climbs, Reads, Compacted};

use token::TokenId;

// Each place has the number of its next and of its prev, or none. A next is past its place. The project has no heap, so places are numbers in lent rows. That the
// struct still holds the same rows (`Stays`) is said at each method, here and of the heap: the check carries it in no other way.
#[derive(Drop)]
pub struct Links<'a> {
    next: &'a mut [u32],
    prev: &'a mut [u32],
    ghost few: { length next.now ≤ most_row },
    ghost long: { length prev.now ≡ length next.now },
    ghost rises: { Rises no_id (length next.now) next.now },
    ghost backs: { Backs no_id (length next.now) prev.now },
}

impl<'a> Links<'a> {
    // Each place is linked to the next and to the one before.
    pub fn new(next: &'a mut [u32], prev: &'a mut [u32]) -> Links<'a>
        requires { (2 ≤ length next.old) × (length next.old ≤ most_row) × (length prev.old ≡ length next.old) }
        ensures rows { Stays next.entry result.next × Stays prev.entry result.prev }
        ensures fresh { Fresh no_id no_id (length next.old) result.next.now result.prev.now }
    {
        let n = next.len();
        prev[0] = TokenId::NONE;
        for i in 1..n {
            next[i - 1] = i as u32;
            prev[i] = (i - 1) as u32;
        }
        next[n - 1] = TokenId::NONE;
        Links { next, prev }
    }

    pub fn next_of(&self, place: usize) -> Option<usize>
        requires { place < length self.now.next.now }
        ensures { IsPlace no_id (get_or self.now.next.now place 0) result }
    {
        place_of(self.next[place])
    }

    pub fn prev_of(&self, place: usize) -> Option<usize>
        requires { place < length self.now.next.now }
        ensures { IsPlace no_id (get_or self.now.prev.now place 0) result }
    {
        place_of(self.prev[place])
    }

    // Takes the place `right`, which is next to `at`, out of the links. `SmallLinks::join` does so with what it read of its arrays before they were copied
    // to it: one function for both would read them again, where a copy waits for stores, or take what was read, and be no plainer.
    pub fn unlink(&mut self, at: usize, right: usize)
        requires { (at < right) × (right < length self.old.next.now) }
        ensures rows { Stays self.old.next self.new.next × Stays self.old.prev self.new.prev }
        ensures cut { Cut no_id self.old.next.now self.old.prev.now at right self.new.next.now self.new.prev.now }
    {
        let after = self.next[right];
        self.next[at] = after;
        self.next[right] = TokenId::NONE;
        if let Some(after) = place_of(after) {
            self.prev[after] = at as u32;
        }
    }
}

// What a link says: a place, or none. Casts between u32 and usize are by `as`, here and above: there is no From.
fn place_of(link: u32) -> Option<usize>
    ensures { IsPlace no_id link result }
{
    if link == TokenId::NONE {
        None
    } else {
        Some(link as usize)
    }
}

// Moves what stands at the linked places to the front, and none behind it. How many there are comes back. `next` says what is next to a place.
pub fn compact<F: Fn(usize) -> Option<usize>>(row: &mut [u32], next: F) -> usize
    requires some { 0 < length row.old }
    requires calls { (i : ℕ) → i < length row.old → F.pre next i }
    requires climbs { Climbs (F.post next) (length row.old) }
    ensures { (end : ℕ) (links : List ℕ) → length row.old ≤ end → Reads (F.post next) end (length row.old) links
        → Compacted end row.old links row.new result }
{
    let mut count = 0;
    let mut at = 0;
    loop {
        row[count] = row[at];
        count += 1;
        let Some(after) = next(at) else {
            break;
        };
        at = after;
    }
    row[count..].fill(TokenId::NONE);
    count
}
