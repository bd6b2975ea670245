// The cache of short pretokens, in one lent row of words. specs/ has its calls as functions of the words and the count, proofs/ that any
// run of them answers as a plain map (Map.antt).
#![tactic(auto)]

ghost use Rattle.std.specs.Prelude.{◌≡◌, ◌≤◌, IfOk, OnOk};
ghost use Rattle.pretoken_cache.specs.Limits.{most_slots};
ghost use Rattle.pretoken_cache.specs.Table.{shaped};
ghost use Rattle.pretoken_cache.specs.Calls.{get, insert as inserted, insert_at as inserted_at, replace as replaced, clear as cleared, reset, with_at_least, capacity as capacity_of, required, unfit, grow as grown, view, probe};
ghost use Rattle.pretoken_cache.specs.Told.{told, tells_size, tells_view, tells_probe, barred, Does};

use size::Table;
use slot::{Keyed, Slot};
use token::{Refusal, Stop};

mod change;
mod size;
mod slot;
mod walk;

// A key of two words, and the hash that places it. A name is all of these together.
#[derive(Clone, Copy, PartialEq, Eq, Debug)]
pub struct Name {
    pub high: u64,
    pub low: u64,
    pub h: u64,
}

// What is stored under a name.
#[derive(Clone, Copy, PartialEq, Eq, Debug)]
pub struct Value {
    pub val: u64,
    pub ext: u64,
}

// The count of a cache's entries. Its words are lent to each call.
#[derive(Clone, Copy, PartialEq, Eq, Debug)]
pub struct ShortPretokenCache {
    pub len: usize,
}

// What a probe needs of a table: the mask of its home pairs. It stands for one table size, and other words are refused.
#[derive(Clone, Copy, PartialEq, Eq, Debug)]
pub struct ProbeView {
    pub pair_mask: usize,
}

// What is stored under the name, or the first empty slot of its walk. Neither is an error, so it is no Result.
#[derive(Clone, Copy, PartialEq, Eq, Debug)]
pub enum Got {
    Found(Value),
    Missing(usize),
}

impl ShortPretokenCache {
    // the words of a slot
    pub const WIDTH: usize = 5;

    // both key words of an empty slot
    pub const EMPTY_KEY: u64 = 0;

    pub const MIN_SLOTS: usize = 2;

    // the most slots, and the most entries
    pub const MAX_SLOTS: usize = 2097152;

    // the capacity rule gives no fewer slots
    pub const FLOOR_SLOTS: usize = 65536;

    // the largest argument of the capacity rule
    pub const MAX_ASKED: usize = 1048576;

    // A cache with no entry.
    pub fn new() -> Self
        ensures { result.len ≡ 0 }
    {
        ShortPretokenCache { len: 0 }
    }

    pub fn len(self) -> usize
        ensures { result ≡ self.len }
    {
        self.len
    }

    // The table of these words, for a call with this count. Refuses 1, then 2.
    #[tactic(auto, unfolding(crate::specs::Calls::unfit))]
    fn table(self, words: &[u64]) -> Result<Table<'_>, Refusal>
        ensures verdict { barred result ≡ unfit self.len (shaped words.now) }
        ensures kept { IfOk result (λ table. table.words.now ≡ words.now) }
        ensures few { OnOk result (self.len ≤ most_slots) }
    {
        if self.len > Self::MAX_SLOTS {
            return Err(Refusal::CountTooLarge);
        }
        Table::new(words)
    }

    // How many slots the words are. Refuses 2.
    #[tactic(auto, unfolding(crate::specs::Calls::capacity))]
    pub fn capacity(words: &[u64]) -> Result<usize, Refusal>
        ensures { tells_size result ≡ capacity_of words.now }
    {
        Ok(Table::new(words)?.slots())
    }

    // How many slots take n entries and a new one, and are no fewer than asked. Refuses 1.
    #[tactic(auto, unfolding(crate::specs::Calls::required, crate::specs::Calls::over_asked))]
    pub fn required_capacity(n: usize, min_slots: usize) -> Result<usize, Refusal>
        ensures { tells_size result ≡ required n min_slots }
    {
        if n > Self::MAX_ASKED || min_slots > Self::MAX_ASKED {
            return Err(Refusal::CountTooLarge);
        }
        Ok(size::required(n, min_slots))
    }

    // Words of exactly the required slots become an empty table. Refuses 1 and 2.
    #[tactic(auto, using(crate::proofs::Makes::made_of, crate::proofs::Makes::made_refused))]
    pub fn with_at_least(words: &mut [u64], n: usize, min_slots: usize) -> Result<Self, Refusal>
        ensures { Does (with_at_least words.old n min_slots) 0 result words.new }
    {
        let cap = Self::required_capacity(n, min_slots)?;
        Self::new().reset_to_capacity(words, cap)
    }

    // All words and the count are zero. Refuses 1 and 2. By a rule of the project a changing call, this one and those below, takes the count by value and
    // hands it back; a refusal leaves the words and the caller's own count as they were.
    #[tactic(auto, unfolding(crate::specs::Calls::clear))]
    pub fn clear(self, words: &mut [u64]) -> Result<Self, Refusal>
        ensures { Does (cleared self.len words.old) self.len result words.new }
    {
        self.table(words)?;
        words.fill(0);
        Ok(Self { len: 0 })
    }

    // The same, for words of exactly `cap` slots.
    #[tactic(auto, unfolding(crate::specs::Calls::reset, crate::specs::Calls::unfit, crate::specs::Calls::clear))]
    pub fn reset_to_capacity(self, words: &mut [u64], cap: usize) -> Result<Self, Refusal>
        ensures { Does (reset self.len words.old cap) self.len result words.new }
    {
        if self.table(words)?.slots() != cap {
            return Err(Refusal::WrongShape);
        }
        self.clear(words)
    }

    // Refuses 1, 2, 7 and 10.
    #[tactic(auto, unfolding(crate::specs::Calls::get, crate::specs::Calls::gotten))]
    pub fn get_or_slot(self, words: &[u64], name: Name) -> Result<Got, Refusal>
        ensures { told result ≡ get self.len words.now name }
    {
        let table = self.table(words)?;
        match table.seek(Keyed::new(name)?) {
            Stop::Hit(s) => Ok(Got::Found(table.slot(s).value)),
            Stop::Empty(s) => Ok(Got::Missing(s)),
            Stop::Full => Err(Refusal::NoEmptySlot),
        }
    }

    // A new name goes into the first empty slot of its walk. Refuses 1, 2 and 7 to 10.
    #[tactic(auto, unfolding(crate::specs::Calls::insert))]
    pub fn insert(self, words: &mut [u64], name: Name, value: Value) -> Result<Self, Refusal>
        ensures { Does (inserted self.len words.old name value) self.len result words.new }
    {
        change::place(self, words, None, Slot { name, value })
    }

    // The same, where the slot is known from `get_or_slot`. Refuses 1, 2 and 7 to 11.
    #[tactic(auto, unfolding(crate::specs::Calls::insert_at))]
    pub fn insert_at(
        self,
        words: &mut [u64],
        slot: usize,
        name: Name,
        value: Value,
    ) -> Result<Self, Refusal>
        ensures { Does (inserted_at self.len words.old slot name value) self.len result words.new }
    {
        change::place(self, words, Some(slot), Slot { name, value })
    }

    // A stored name is overwritten, another inserted. Refuses 1, 2, 7, 9 and 10.
    #[tactic(auto, unfolding(crate::specs::Calls::replace))]
    pub fn replace(self, words: &mut [u64], name: Name, value: Value) -> Result<Self, Refusal>
        ensures { Does (replaced self.len words.old name value) self.len result words.new }
    {
        change::overwrite(self, words, Slot { name, value })
    }

    // The entries go into a lent table of twice the slots, and are counted. The old table stays. Refuses 1 and 2.
    #[tactic(auto, using(crate::proofs::Grows::fits_is, crate::proofs::Sizes::shaped_as), unfolding(crate::specs::Calls::grow, crate::specs::Calls::unfit))]
    pub fn grow(self, words: &[u64], into: &mut [u64]) -> Result<Self, Refusal>
        ensures { Does (grown self.len words.now into.old) self.len result into.new }
    {
        let table = self.table(words)?;
        if Table::new(into)?.slots() != 2 * table.slots() {
            return Err(Refusal::WrongShape);
        }
        into.fill(0);
        Ok(Self {
            len: change::carry(table, into),
        })
    }

    // Refuses 1 and 2.
    #[tactic(auto, unfolding(crate::specs::Calls::view, crate::specs::Table::slots))]
    pub fn probe_view(self, words: &[u64]) -> Result<ProbeView, Refusal>
        ensures { tells_view result ≡ view self.len words.now }
    {
        let pair_mask = self.table(words)?.slots() - 2;
        Ok(ProbeView { pair_mask })
    }
}

impl ProbeView {
    // The home pair only: nothing is shown on a miss. Refuses 2 and 7.
    #[tactic(auto, using(crate::proofs::Shapes::view_shape), unfolding(crate::specs::Calls::probe, crate::specs::Calls::zero_key))]
    pub fn probe_pair(self, words: &[u64], name: Name) -> Result<Option<Value>, Refusal>
        ensures { tells_probe result ≡ probe self.pair_mask words.now name }
    {
        let mask = self.pair_mask;
        if !size::viewed(mask, words) {
            return Err(Refusal::WrongShape);
        }
        let key = Keyed::new(name)?;
        Ok(Table { words }.probed(mask, key))
    }
}
