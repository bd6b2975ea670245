// What a name is, and the words of a slot: of the code only this file knows a slot's layout.
ghost use Rattle.std.specs.Prelude.{◌≡◌, false, ◌&&◌, ◌<◌, IfOk};
ghost use Rattle.pretoken_cache.specs.Slot.{same, keyless, name_at, value_at, put as stored};
ghost use Rattle.pretoken_cache.specs.Table.{slots};
ghost use Rattle.pretoken_cache.specs.Calls.{zero_key};
ghost use Rattle.pretoken_cache.specs.Told.{barred};

use crate::size::Table;
use crate::{Name, ShortPretokenCache, Value};
use token::Refusal;

impl Name {
    // Is the key zero?
    #[tactic(auto, unfolding(crate::specs::Slot::keyless))]
    pub(crate) fn is_keyless(self) -> bool
        ensures { result ≡ keyless self }
    {
        self.high == ShortPretokenCache::EMPTY_KEY && self.low == ShortPretokenCache::EMPTY_KEY
    }
}

// A name whose key is not zero.
#[derive(Clone, Copy)]
pub(crate) struct Keyed {
    pub(crate) name: Name,
    ghost has_key: { keyless name ≡ false },
}

impl Keyed {
    // Refuses 7.
    #[tactic(auto, unfolding(crate::specs::Calls::zero_key))]
    pub(crate) fn new(name: Name) -> Result<Self, Refusal>
        ensures verdict { barred result ≡ zero_key name }
        ensures kept { IfOk result (λ key. key.name ≡ name) }
    {
        if name.is_keyless() {
            return Err(Refusal::KeyZero);
        }
        Ok(Keyed { name })
    }
}

// What a slot holds. It is empty if its name has no key.
#[derive(Clone, Copy)]
pub(crate) struct Slot {
    pub(crate) name: Name,
    pub(crate) value: Value,
}

impl Table<'_> {
    // Reached by its place in the row: `as_chunks` is no plainer, since stores and definitions speak of the row, and a view's test would divide.
    #[tactic(auto, unfolding(crate::specs::Slot::name_at, crate::specs::Slot::value_at, crate::specs::Table::slots))]
    pub(crate) fn slot(self, s: usize) -> Slot
        requires { s < slots self.words.now }
        ensures name { result.name ≡ name_at self.entry.words.now s }
        ensures value { result.value ≡ value_at self.entry.words.now s }
    {
        let words = self.words;
        let at = ShortPretokenCache::WIDTH * s;
        Slot {
            name: Name {
                high: words[at],
                low: words[at + 1],
                h: words[at + 4],
            },
            value: Value {
                val: words[at + 2],
                ext: words[at + 3],
            },
        }
    }

    // Is slot s of this name, where that is sought? Its words are read one by one, as far as the test needs them: a walk tests many slots, and takes no more of
    // them.
    #[tactic(auto, unfolding(crate::specs::Slot::same, crate::specs::Slot::name_at, crate::specs::Table::slots))]
    pub(crate) fn is_of<const SOUGHT: bool>(self, s: usize, key: Keyed) -> bool
        requires { s < slots self.words.now }
        ensures { result ≡ (SOUGHT && same key.name (name_at self.entry.words.now s)) }
    {
        let words = self.words;
        let at = ShortPretokenCache::WIDTH * s;
        SOUGHT
            && key.name.high == words[at]
            && key.name.low == words[at + 1]
            && key.name.h == words[at + 4]
    }

    // Is slot s empty?
    pub(crate) fn is_empty(self, s: usize) -> bool
        requires { s < slots self.words.now }
        ensures { result ≡ keyless (name_at self.entry.words.now s) }
    {
        self.slot(s).is_empty()
    }
}

impl Slot {
    pub(crate) fn is_empty(self) -> bool
        ensures { result ≡ keyless self.name }
    {
        self.name.is_keyless()
    }

    #[tactic(auto, unfolding(crate::specs::Slot::put, crate::specs::Slot::row, crate::specs::Table::slots))]
    pub(crate) fn put(self, words: &mut [u64], s: usize)
        requires { s < slots words.old }
        ensures { words.new ≡ stored words.old s self.name self.value }
    {
        let at = ShortPretokenCache::WIDTH * s;
        words[at] = self.name.high;
        words[at + 1] = self.name.low;
        words[at + 2] = self.value.val;
        words[at + 3] = self.value.ext;
        words[at + 4] = self.name.h;
    }
}
