// A min-heap of entries in the first words of a lent row.
ghost use Rattle.std.specs.Prelude.{◌≡◌, ◌+◌, ◌*◌, ◌/◌, ◌%◌, ◌^◌, ◌≤◌, ◌<◌, length};
ghost use Rattle.bpe.specs.Look.{entry as entry_of};
ghost use Rattle.bpe.specs.Links.{Stays};
ghost use Rattle.bpe.specs.Heap.{Ordered, Up, Down, Sifted, Least, Pushed, Took};

// A merged id, which is the priority, and a place. As a word the id is the upper half, so words are in the order of entries.
#[derive(Clone, Copy, PartialEq, Eq, Debug)]
pub struct Entry {
    pub merged: u32,
    pub place: u32,
}

impl From<Entry> for u64 {
    ghost from_gives = { λ e w. w ≡ entry_of e.merged e.place };

    fn from(entry: Entry) -> u64 {
        (u64::from(entry.merged) << 32) | u64::from(entry.place)
    }
}

// `as` cuts the word, which is meant.
impl From<u64> for Entry {
    ghost from_gives = { λ w e. (e.merged ≡ w / 2 ^ 32) × (e.place ≡ w % 2 ^ 32) };

    fn from(word: u64) -> Entry {
        Entry {
            merged: (word >> 32) as u32,
            place: (word & 0xFFFF_FFFF) as u32,
        }
    }
}

// The first words of a lent row, so many as the heap has entries. The library's heap allocates, and the project has no heap.
#[derive(Drop)]
pub struct Heap<'a> {
    words: &'a mut [u64],
    len: usize,
    ghost fits: { len ≤ length words.now },
    ghost ordered: { Ordered words.now len },
}

impl<'a> Heap<'a> {
    pub fn new(words: &'a mut [u64]) -> Heap<'a>
        ensures words { Stays words.entry result.words }
        ensures len { result.len ≡ 0 }
    {
        Heap { words, len: 0 }
    }

    pub fn push(&mut self, entry: Entry)
        requires { self.old.len < length self.old.words.now }
        ensures words { Stays self.old.words self.new.words }
        ensures pushed { Pushed self.old.words.now self.old.len (entry_of entry.merged entry.place) self.new.words.now self.new.len }
    {
        let at = self.len;
        self.words[at] = u64::from(entry);
        sift_up(self.words, at);
        self.len = at + 1;
    }

    // The least entry is taken out, if there is one.
    pub fn pop(&mut self) -> Option<Entry>
        ensures words { Stays self.old.words self.new.words }
        ensures took { Took self.old.words.now self.old.len self.new.words.now self.new.len result }
    {
        if self.len == 0 {
            return None;
        }
        self.len -= 1;
        let last = self.len;
        let words = &mut *self.words;
        let top = words[0];
        words[0] = words[last];
        sift_down(words, last);
        Some(Entry::from(top))
    }
}

// The word at `from`, the last of the heap, goes up to where it belongs.
fn sift_up(heap: &mut [u64], from: usize)
    requires { (from < length heap.old) × Up heap.old (from + 1) from }
    ensures { Sifted heap.old (from + 1) heap.new }
{
    let mut at = from;
    while 0 < at {
        let parent = (at - 1) / 2;
        if heap[parent] <= heap[at] {
            break;
        }
        heap.swap(parent, at);
        at = parent;
    }
}

// The child of `at` with the lesser word, the left one among equals.
fn least_child(heap: &[u64], len: usize, at: usize) -> usize
    requires { (len ≤ length heap.now) × (2 * at + 1 < len) }
    ensures { Least heap.now len at result }
{
    let left = 2 * at + 1;
    let right = left + 1;
    if right < len && heap[right] < heap[left] {
        right
    } else {
        left
    }
}

// The first word goes down to where it belongs.
fn sift_down(heap: &mut [u64], len: usize)
    requires { (len ≤ length heap.old) × Down heap.old len 0 }
    ensures { Sifted heap.old len heap.new }
{
    let mut at = 0;
    while at < len / 2 {
        let child = least_child(heap, len, at);
        if heap[at] <= heap[child] {
            break;
        }
        heap.swap(at, child);
        at = child;
    }
}
