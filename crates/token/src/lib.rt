// Ids and the numbers that bound them, the refusals of every call, the sizes and walks of tables, and the low word of a product.
#![tactic(auto)]

ghost use Rattle.std.specs.Prelude.{◌≡◌, ◌*◌, ◌%◌, ◌^◌, nat_le, Some};
ghost use Rattle.token.specs.Limits.{top, no_id};
ghost use Rattle.token.specs.Ids.{first_too_large, index_in};
ghost use Rattle.token.specs.Sizes.{power_within};
ghost use Rattle.token.specs.Refusals.{number as number_of, place as place_of};
ghost use Rattle.token.specs.Printed.{refusal_text};

use std::error::Error;
use std::fmt;

// An id, or none.
#[derive(Clone, Copy, PartialEq, Eq, Debug)]
pub struct TokenId(pub u32);

impl TokenId {
    // an id has so many bits
    pub const BITS: u32 = 21;

    // the largest id
    pub const MAX: u32 = 2097151;

    // what stands where there is no id
    pub const NONE: u32 = 4294967295;

    // the most ids of a row
    pub const ROW_MAX: usize = 65536;

    // the most entries of a vocabulary
    pub const VOCAB_MAX: usize = 2097152;

    // A rule of the project has a constructor beside the constants, so it is no From.
    pub fn new(value: u32) -> Self
        ensures { result.0 ≡ value }
    {
        TokenId(value)
    }

    // The same holds of it.
    pub fn none() -> Self
        ensures { result.0 ≡ no_id }
    {
        TokenId(TokenId::NONE)
    }

    // Is it an id, and not too large?
    pub fn fits(self) -> bool
        ensures { result ≡ nat_le self.0 top }
    {
        self.0 <= TokenId::MAX
    }
}

// Why a call did not do what it was asked, in the order of the numbers.
#[derive(Clone, Copy, PartialEq, Eq, Debug)]
pub enum Refusal {
    CountTooLarge,
    WrongShape,
    IdTooLarge(usize),
    PairRepeated(usize),
    TooFar(usize),
    ByteMissing(u8),
    KeyZero,
    AlreadyStored(usize),
    LoadLimit,
    NoEmptySlot,
    OtherSlot(usize),
}

impl Refusal {
    pub fn number(self) -> u8
        ensures { result ≡ number_of self }
    {
        match self {
            Refusal::CountTooLarge => 1,
            Refusal::WrongShape => 2,
            Refusal::IdTooLarge(_) => 3,
            Refusal::PairRepeated(_) => 4,
            Refusal::TooFar(_) => 5,
            Refusal::ByteMissing(_) => 6,
            Refusal::KeyZero => 7,
            Refusal::AlreadyStored(_) => 8,
            Refusal::LoadLimit => 9,
            Refusal::NoEmptySlot => 10,
            Refusal::OtherSlot(_) => 11,
        }
    }

    pub fn place(self) -> usize
        ensures { result ≡ place_of self }
    {
        match self {
            Refusal::IdTooLarge(index) => index,
            Refusal::PairRepeated(rule) => rule,
            Refusal::TooFar(rule) => rule,
            Refusal::ByteMissing(byte) => usize::from(byte),
            Refusal::AlreadyStored(slot) => slot,
            Refusal::OtherSlot(slot) => slot,
            Refusal::CountTooLarge
            | Refusal::WrongShape
            | Refusal::KeyZero
            | Refusal::LoadLimit
            | Refusal::NoEmptySlot => 0,
        }
    }
}

impl fmt::Display for Refusal {
    ghost output = { λ f. Some (refusal_text f) };

    fn fmt<W: fmt::Write>(&self, f: &mut fmt::Formatter<W>) -> fmt::Result {
        let number = self.number();
        let place = self.place();
        write!(f, "refused by {number} at {place}")
    }
}

impl Error for Refusal {}

// Where a walk over the slots of a table stopped: at what it sought, at an empty slot, or nowhere.
#[derive(Clone, Copy, PartialEq, Eq, Debug)]
pub enum Stop {
    Hit(usize),
    Empty(usize),
    Full,
}

// The index of the first number that is too large for an id.
pub fn first_too_large(row: &[u32]) -> Option<usize>
    ensures { result ≡ index_in row.now (first_too_large row.now) }
{
    row.iter().position(|id| *id > TokenId::MAX)
}

// Is n a power of two from the least to the most? Tables have so many slots.
#[tactic(auto, unfolding(crate::specs::Sizes::power_within))]
pub fn is_power_within(n: usize, least: usize, most: usize) -> bool
    ensures { result ≡ power_within least most n }
{
    n.count_ones() == 1 && least <= n && n <= most
}

// The low 64 bits of a * b, by wrapping additions: a rule of the project has it made of these.
pub fn low_product(a: u64, b: u64) -> u64
    ensures { result ≡ (a * b) % 2 ^ 64 }
{
    let mut acc: u64 = 0;
    let mut x = a;
    let mut y = b;
    while y != 0 {
        if y & 1 == 1 {
            acc = acc.wrapping_add(x);
        }
        x = x.wrapping_add(x);
        y >>= 1;
    }
    acc
}
