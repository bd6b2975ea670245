// What the changing calls do. The count and the lent words come apart here as in the public calls.
ghost use Rattle.std.specs.Prelude.{◌≡◌, true, ◌≤◌};
ghost use Rattle.token.specs.Walks.{walked};
ghost use Rattle.pretoken_cache.specs.Limits.{most_slots};
ghost use Rattle.pretoken_cache.specs.Slot.{slot_at};
ghost use Rattle.pretoken_cache.specs.Table.{shaped, slots, seek as sought, weight, taken};
ghost use Rattle.pretoken_cache.specs.Calls.{unfit, zero_key, first_of, guarded, placed, replaced, moved, carried};
ghost use Rattle.pretoken_cache.specs.Told.{Inside, right, held_in, Does};

use crate::size::Table;
use crate::slot::{Keyed, Slot};
use crate::{ShortPretokenCache, size};
use token::{Refusal, Stop};

// A new name, where its walk stopped: at any empty slot, or at the proposed one.
#[tactic(auto, unfolding(crate::specs::Calls::placed, crate::specs::Table::slots))]
fn settle(
    cache: ShortPretokenCache,
    words: &mut [u64],
    stop: Stop,
    spot: Option<usize>,
    entry: Slot,
) -> Result<ShortPretokenCache, Refusal>
    requires inside { Inside stop (slots words.old) }
    requires few { (slots words.old ≤ most_slots) × (cache.len ≤ most_slots) }
    ensures { Does (placed (right spot) cache.len words.old entry.name entry.value (walked stop)) cache.len result words.new }
{
    let n = words.len() / ShortPretokenCache::WIDTH;
    if let Stop::Hit(s) = stop {
        return Err(Refusal::AlreadyStored(s));
    }
    if size::laden(n, cache.len) {
        return Err(Refusal::LoadLimit);
    }
    let Stop::Empty(s) = stop else {
        return Err(Refusal::NoEmptySlot);
    };
    if spot.is_some_and(|proposed| proposed != s) {
        return Err(Refusal::OtherSlot(s));
    }
    entry.put(words, s);
    let len = cache.len + 1;
    Ok(ShortPretokenCache { len })
}

// A new name.
#[tactic(auto, using(crate::proofs::Sizes::slots_most))]
pub(crate) fn place(
    cache: ShortPretokenCache,
    words: &mut [u64],
    spot: Option<usize>,
    entry: Slot,
) -> Result<ShortPretokenCache, Refusal>
    ensures { Does (guarded (first_of (unfit cache.len (shaped words.old)) (zero_key entry.name)) words.old cache.len (placed (right spot) cache.len words.old entry.name entry.value (sought words.old entry.name))) cache.len result words.new }
{
    let table = cache.table(words)?;
    let stop = table.seek(Keyed::new(entry.name)?);
    settle(cache, words, stop, spot, entry)
}

// A name's value, old or new.
#[tactic(auto, using(crate::proofs::Sizes::slots_most), unfolding(crate::specs::Calls::replaced))]
pub(crate) fn overwrite(
    cache: ShortPretokenCache,
    words: &mut [u64],
    entry: Slot,
) -> Result<ShortPretokenCache, Refusal>
    ensures { Does (guarded (first_of (unfit cache.len (shaped words.old)) (zero_key entry.name)) words.old cache.len (replaced cache.len words.old entry.name entry.value (sought words.old entry.name))) cache.len result words.new }
{
    let table = cache.table(words)?;
    let stop = table.seek(Keyed::new(entry.name)?);
    if let Stop::Hit(at) = stop {
        entry.put(words, at);
        return Ok(cache);
    }
    settle(cache, words, stop, None, entry)
}

// An old slot goes into the larger table, and counts, if it is taken.
#[tactic(auto, unfolding(crate::specs::Calls::moved, crate::specs::Calls::seated, crate::specs::Table::weight))]
fn move_slot(slot: Slot, into: &mut [u64]) -> usize
    requires { shaped into.old ≡ true }
    ensures moves { into.new ≡ moved (held_in slot) into.old }
    ensures counts { result ≡ weight (held_in slot) }
{
    if slot.is_empty() {
        return 0;
    }
    let stop = Table { words: into }.first_empty(Keyed { name: slot.name });
    if let Stop::Empty(e) = stop {
        slot.put(into, e);
    }
    1
}

// The old entries in slot order, into a table that is empty.
#[tactic(auto, using(crate::proofs::Grows::shaped_moved, crate::proofs::Grows::carried_next, crate::proofs::Grows::taken_next, crate::proofs::Table::taken_le, crate::proofs::Names::weight_le), unfolding(crate::specs::Calls::carried, crate::specs::Table::taken, crate::specs::Slot::slot_at))]
pub(crate) fn carry(old: Table, into: &mut [u64]) -> usize
    requires { shaped into.old ≡ true }
    ensures moves { into.new ≡ carried old.entry.words.now (slots old.entry.words.now) into.old }
    ensures counts { result ≡ taken (slot_at old.entry.words.now) (slots old.entry.words.now) }
{
    let mut count = 0;
    for s in 0..old.slots() {
        count += move_slot(old.slot(s), into);
    }
    count
}
