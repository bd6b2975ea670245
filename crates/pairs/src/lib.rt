// The pair table, in one lent row of slots: `build` stores a list of rules, `rank` looks a pair up. specs/ has both as functions of what
// they are given, proofs/ that a lookup over a built table is the list's.
#![tactic(auto)]

ghost use Rattle.std.specs.Prelude.{◌≡◌, ◌≤◌, length};
ghost use Rattle.token.specs.Limits.{top};
ghost use Rattle.token.specs.Walks.{walked};
ghost use Rattle.pairs.specs.Limits.{most_rules};
ghost use Rattle.pairs.specs.Key.{merged_in, key as key_of, packed, shift as shift_of, home as home_of};
ghost use Rattle.pairs.specs.Walk.{walk, reach as reach_of};
ghost use Rattle.pairs.specs.Table.{Sized, shaped as is_shaped, enough as is_enough, wanted as is_wanted};
ghost use Rattle.pairs.specs.Calls.{ranking_of, says, Builds};
ghost use Rattle.pairs.specs.Held.{held_rank, Held};
ghost use Rattle.pairs.specs.Rank.{rank_of};
ghost use Rattle.pairs.specs.Steps.{Fits, Shifts, Fitted, Checks, OfIds, Inserts, Fillable, Stores, Fills};

use token::{Refusal, Stop, TokenId};

// The lent slots with their mask and shift, held as one thing.
// No ghost field says that mask and shift are the slots': the fields are public, and `rank` takes and refuses any others.
#[derive(Clone, Copy, PartialEq, Eq, Debug)]
pub struct PairRankTable<'a> {
    pub slots: &'a [u64],
    pub mask: usize,
    pub shift: u32,
}

impl<'a> PairRankTable<'a> {
    // an empty slot
    pub const EMPTY: u64 = 0xFFFF_FFFF_FFFF_FFFF;

    // the factor of the hash
    pub const FACTOR: u64 = 0x9E37_79B9_7F4A_7C15;

    // the most rules of a list
    pub const MAX_RULES: usize = 131072;

    pub const MIN_SLOTS: usize = 64;

    pub const MAX_SLOTS: usize = 262144;

    // a rule stands at most so many slots after its home
    pub const MAX_DISPLACEMENT: usize = 64;

    // The table of these slots. Of slots that are no table, one that refuses every pair.
    #[tactic(auto, using(crate::proofs::Held::held_of))]
    pub fn new(slots: &'a [u64]) -> PairRankTable<'a>
        ensures { Held slots.entry result }
    {
        PairRankTable::checked(slots).unwrap_or(PairRankTable {
            slots,
            mask: 0,
            shift: 0,
        })
    }

    // The table of these slots. Refuses 2.
    fn checked(slots: &'a [u64]) -> Result<PairRankTable<'a>, Refusal>
        ensures { Checks slots.entry result }
    {
        if !shaped(slots.len()) {
            return Err(Refusal::WrongShape);
        }
        Ok(PairRankTable::of_shaped(slots))
    }

    // The table of slots that are as many as a table can have.
    fn of_shaped(slots: &'a [u64]) -> PairRankTable<'a>
        requires { Sized (length slots.now) }
        ensures { Fitted slots.entry result }
    {
        let n = slots.len();
        PairRankTable {
            slots,
            mask: n - 1,
            shift: shift_of(n),
        }
    }

    // What the pair is merged to: it takes itself apart and calls the plain lookup. Refuses 2 and 3.
    #[tactic(auto, using(crate::proofs::Held::holding))]
    pub fn rank(self, a: u32, b: u32) -> Result<Option<u32>, Refusal>
        ensures { says result ≡ held_rank self.entry.slots.now self.entry.mask self.entry.shift a b }
    {
        let PairRankTable { slots, mask, shift } = self;
        let held = PairRankTable::checked(slots)?;
        if mask != held.mask || shift != held.shift {
            return Err(Refusal::WrongShape);
        }
        rank(slots, a, b)
    }

    // What the pair is merged to, in a table whose mask and shift are those of its slots. Refuses 3.
    #[tactic(auto, using(crate::proofs::Ranks::ranking))]
    fn rank_in(self, a: u32, b: u32) -> Result<Option<u32>, Refusal>
        requires { Fits self.slots.now self.mask self.shift }
        ensures { says result ≡ ranking_of self.entry.slots.now a b }
    {
        if a > TokenId::MAX {
            return Err(Refusal::IdTooLarge(0));
        }
        if b > TokenId::MAX {
            return Err(Refusal::IdTooLarge(1));
        }
        match self.find(key(a, b), self.slots.len()) {
            Stop::Hit(i) => Ok(Some(merged(self.slots[i]))),
            Stop::Empty(_) | Stop::Full => Ok(None),
        }
    }

    // The walk of a key from its home, over at most `fuel` slots.
    // By a rule of the project the loop breaks with its stop as its value, which a `for` has not.
    #[tactic(auto, using(crate::proofs::Ranks::walking))]
    fn find(self, k: u64, fuel: usize) -> Stop
        requires { Fits self.slots.now self.mask self.shift }
        ensures { walked result ≡ walk self.entry.slots.now k fuel (home_of self.entry.shift k) }
    {
        let mut idx = home(k, self.shift);
        let mut left = fuel;
        loop {
            if left == 0 {
                break Stop::Full;
            }
            let slot = self.slots[idx];
            if slot >> TokenId::BITS == k {
                break Stop::Hit(idx);
            }
            if slot == PairRankTable::EMPTY {
                break Stop::Empty(idx);
            }
            idx = (idx + 1) & self.mask;
            left -= 1;
        }
    }
}

// A pair of ids, and the id that it is merged to.
#[derive(Clone, Copy, PartialEq, Eq, Debug)]
struct Rule {
    left: u32,
    right: u32,
    merged: u32,
}

impl Rule {
    // The word of a slot that has the rule. It asks for ids (`OfIds`), and `From` takes no `requires`.
    #[tactic(auto, using(crate::proofs::Bits::pack3))]
    fn packed(self) -> u64
        requires { OfIds self }
        ensures { result ≡ packed self.left self.right self.merged }
    {
        (u64::from(self.left) << (2 * TokenId::BITS))
            | (u64::from(self.right) << TokenId::BITS)
            | u64::from(self.merged)
    }
}

// Can a table have so many slots: a power of two from 64 to 262,144?
#[tactic(auto, unfolding(crate::specs::Table::shaped))]
pub fn shaped(n: usize) -> bool
    ensures { result ≡ is_shaped n }
{
    token::is_power_within(n, PairRankTable::MIN_SLOTS, PairRankTable::MAX_SLOTS)
}

// How far the hash is shifted, so that its top bits number n slots.
#[tactic(auto, unfolding(crate::specs::Key::shift))]
fn shift_of(n: usize) -> u32
    ensures { result ≡ shift_of n }
{
    u64::BITS - n.trailing_zeros()
}

fn key(a: u32, b: u32) -> u64
    ensures { result ≡ key_of a b }
{
    (u64::from(a) << TokenId::BITS) + u64::from(b)
}

// The lowest bits of a slot. `as` cuts the word, which is meant.
fn merged(slot: u64) -> u32
    ensures { result ≡ merged_in slot }
{
    (slot & u64::from(TokenId::MAX)) as u32
}

// The top bits of the key's hash. `as`, since u64 to usize has no From.
#[tactic(auto, unfolding(crate::specs::Key::home))]
fn home(k: u64, shift: u32) -> usize
    requires { Shifts shift }
    ensures { result ≡ home_of shift k }
{
    (token::low_product(k, PairRankTable::FACTOR) >> shift) as usize
}

// What the pair is merged to. Refuses 2 and 3.
#[tactic(auto, using(crate::proofs::Ranks::rank_shape))]
pub fn rank(slots: &[u64], a: u32, b: u32) -> Result<Option<u32>, Refusal>
    ensures { says result ≡ ranking_of slots.now a b }
{
    PairRankTable::checked(slots)?.rank_in(a, b)
}

// The same as one number, for merging: a pair that is refused has no rule.
// It is a plain number, since the rows and ranks of merging hold plain numbers, and none is such a number by a rule of the project.
#[tactic(auto, unfolding(crate::specs::Rank::rank_of))]
pub fn rank_or_none(slots: &[u64], a: u32, b: u32) -> u32
    ensures { result ≡ rank_of slots.now a b }
{
    match rank(slots, a, b) {
        Ok(Some(m)) => m,
        _ => TokenId::NONE,
    }
}

// The lookup through the table that holds the slots, for a caller that holds none itself.
#[tactic(auto, using(crate::proofs::Held::held_looks))]
pub fn rank_by_table(slots: &[u64], a: u32, b: u32) -> Result<Option<u32>, Refusal>
    ensures { says result ≡ ranking_of slots.now a b }
{
    PairRankTable::new(slots).rank(a, b)
}

fn enough(rules: usize, n: usize) -> bool
    requires { rules ≤ most_rules }
    ensures { result ≡ is_enough rules n }
{
    PairRankTable::MIN_SLOTS <= n && 2 * rules <= n
}

// The smallest power of two that is enough.
#[tactic(auto, unfolding(crate::specs::Table::wanted))]
fn wanted(rules: usize, n: usize) -> bool
    requires { rules ≤ most_rules }
    ensures { result ≡ is_wanted rules n }
{
    n.count_ones() == 1 && enough(rules, n) && !enough(rules, n / 2)
}

// How many slots a rule may try: its home, and no more than one round.
fn reach(n: usize) -> usize
    ensures { result ≡ reach_of n }
{
    n.min(PairRankTable::MAX_DISPLACEMENT + 1)
}

// Stores the rule of that number in the first empty slot of its walk. Refuses 4 and 5.
#[tactic(auto, using(crate::proofs::Fills::inserting))]
fn insert(slots: &mut [u64], rule: Rule, number: usize) -> Result<(), Refusal>
    requires size { Sized (length slots.old) }
    requires ids { OfIds rule }
    ensures { Inserts slots.old rule number result slots.new }
{
    let tries = reach(slots.len());
    match PairRankTable::of_shaped(slots).find(key(rule.left, rule.right), tries) {
        Stop::Hit(_) => Err(Refusal::PairRepeated(number)),
        Stop::Empty(i) => {
            slots[i] = rule.packed();
            Ok(())
        }
        Stop::Full => Err(Refusal::TooFar(number)),
    }
}

// The rules in list order, into slots that are all empty. Refuses 4 and 5 at the first bad rule.
#[tactic(auto, using(crate::proofs::Fills::storing))]
fn store(list: &[u32], slots: &mut [u64]) -> Result<(), Refusal>
    requires { Fillable list.now slots.old }
    ensures { Stores list.now slots.old result slots.new }
{
    let (rules, _) = list.as_chunks::<3>();
    for (number, &[left, right, merged]) in rules.iter().enumerate() {
        let rule = Rule {
            left,
            right,
            merged,
        };
        insert(slots, rule, number)?;
    }
    Ok(())
}

// The same, but the first bad rule empties the slots again.
fn fill(list: &[u32], slots: &mut [u64]) -> Result<(), Refusal>
    requires { Fillable list.now slots.old }
    ensures { Fills list.now slots.old result slots.new }
{
    let stored = store(list, slots);
    if stored.is_err() {
        slots.fill(PairRankTable::EMPTY);
    }
    stored
}

// The slots of a list of rules. Refuses 1 to 5.
#[tactic(auto, using(crate::proofs::Builds::building))]
pub fn build(list: &[u32], vocab_len: usize, slots: &mut [u64]) -> Result<(), Refusal>
    ensures { Builds list.now vocab_len slots.old result slots.new }
{
    let rules = list.len() / 3;
    if rules > PairRankTable::MAX_RULES || vocab_len > TokenId::VOCAB_MAX {
        return Err(Refusal::CountTooLarge);
    }
    if list.len() % 3 != 0 || !wanted(rules, slots.len()) {
        return Err(Refusal::WrongShape);
    }
    if let Some(at) = token::first_too_large(list) {
        return Err(Refusal::IdTooLarge(at));
    }
    slots.fill(PairRankTable::EMPTY);
    fill(list, slots)
}
