// Tables: their shape, the load rule and the capacity rule.
ghost use Rattle.std.specs.Prelude.{◌≡◌, true, cond, ◌≤◌, IfOk};
ghost use Rattle.token.specs.Refusals.{fine, refused};
ghost use Rattle.pretoken_cache.specs.Limits.{least_slots, most_slots, most_asked};
ghost use Rattle.pretoken_cache.specs.Table.{proper as is_proper, slots, shaped as is_shaped, laden as is_laden};
ghost use Rattle.pretoken_cache.specs.Capacity.{required as required_of};
ghost use Rattle.pretoken_cache.specs.Calls.{viewed as is_viewed};
ghost use Rattle.pretoken_cache.specs.Told.{barred};

use crate::ShortPretokenCache;
use token::Refusal;

// A power of two from the least to the most.
#[tactic(auto, unfolding(crate::specs::Table::proper))]
pub(crate) fn proper(n: usize) -> bool
    ensures { result ≡ is_proper n }
{
    token::is_power_within(
        n,
        ShortPretokenCache::MIN_SLOTS,
        ShortPretokenCache::MAX_SLOTS,
    )
}

#[tactic(auto, unfolding(crate::specs::Table::shaped, crate::specs::Table::slots))]
pub(crate) fn shaped(words: &[u64]) -> bool
    ensures { result ≡ is_shaped words.now }
{
    let n = words.len() / ShortPretokenCache::WIDTH;
    words.len() == ShortPretokenCache::WIDTH * n && proper(n)
}

// Is the mask that of these words? It needs no division.
#[tactic(auto, using(crate::proofs::Shapes::viewed_is))]
pub(crate) fn viewed(mask: usize, words: &[u64]) -> bool
    ensures { result ≡ is_viewed mask words.now }
{
    mask <= ShortPretokenCache::MAX_SLOTS
        && words.len() == ShortPretokenCache::WIDTH * (mask + 2)
        && proper(mask + 2)
}

// Words of the right shape.
#[derive(Clone, Copy)]
pub(crate) struct Table<'a> {
    pub(crate) words: &'a [u64],
    ghost has_shape: { is_shaped words.now ≡ true },
}

impl<'a> Table<'a> {
    // Refuses 2.
    pub(crate) fn new(words: &'a [u64]) -> Result<Self, Refusal>
        ensures verdict { barred result ≡ cond (is_shaped words.now) fine (refused 2 0) }
        ensures kept { IfOk result (λ table. table.words.now ≡ words.now) }
    {
        if !shaped(words) {
            return Err(Refusal::WrongShape);
        }
        Ok(Table { words })
    }

    #[tactic(auto, using(crate::proofs::Sizes::shape), unfolding(crate::specs::Table::slots))]
    pub(crate) fn slots(self) -> usize
        ensures count { result ≡ slots self.entry.words.now }
        ensures least { least_slots ≤ result }
        ensures most { result ≤ most_slots }
    {
        self.words.len() / ShortPretokenCache::WIDTH
    }
}

// One entry more is too many for n slots.
#[tactic(auto, unfolding(crate::specs::Table::laden))]
pub(crate) fn laden(n: usize, count: usize) -> bool
    requires { (n ≤ most_slots) × (count ≤ most_slots) }
    ensures { result ≡ is_laden n count }
{
    (count + 1) * 4 > n * 3
}

// The capacity rule.
pub(crate) fn required(n: usize, min_slots: usize) -> usize
    requires { (n ≤ most_asked) × (min_slots ≤ most_asked) }
    ensures { result ≡ required_of n min_slots }
{
    let mut cap = min_slots
        .max(ShortPretokenCache::FLOOR_SLOTS)
        .next_power_of_two();
    while laden(cap, n) {
        cap *= 2;
    }
    cap
}
