// The byte map: which id stands for each byte of a text, read off a vocabulary.
#![tactic(auto)]

ghost use Rattle.std.specs.Prelude.{◌≡◌, slice_index, IfOk, MatchResult};
ghost use Rattle.token.specs.Refusals.{verdict};
ghost use Rattle.remap.specs.Utf8.{utf8};
ghost use Rattle.remap.specs.Vocabulary.{falls as falls_after, misshapen as misshapen_in};
ghost use Rattle.remap.specs.Map.{missing, map_of, differs as differs_from};
ghost use Rattle.remap.specs.Calls.{told, verdict_of, ids, Remaps};
ghost use Rattle.remap.specs.Steps.{refused_by, read_all, give as given, lacks as lacks_id, told_missing, Scannable};

use token::{Refusal, TokenId};

// The id of each byte.
#[derive(Clone, Copy, PartialEq, Eq, Debug)]
pub struct ByteRemapping {
    pub mapping: [u32; ByteRemapping::BYTES],
}

// A map, whether it differs from the identity, and what is said of the vocabulary.
// A refused call promises a map too: all 0, with its flag off (record Remaps; edits refused_map_unset and refused_flag_on). So only the verdict is a Result.
#[derive(Clone, Copy, PartialEq, Eq, Debug)]
pub struct Remapped {
    pub map: ByteRemapping,
    pub differs: bool,
    pub verdict: Result<(), Refusal>,
}

impl ByteRemapping {
    // so many values has a byte
    pub const BYTES: usize = 256;

    // the id of a byte that has no entry and needs none
    pub const FILLER: u32 = 0;

    // Entry i of the vocabulary runs from the end before it (0 at first) to its own. Refuses 1, 2 and 6.
    pub fn from_byte_vocab(bytes: &[u8], ends: &[u32]) -> Remapped
        ensures { Remaps bytes.now ends.now result }
    {
        match ByteRemapping::read(bytes, ends) {
            Ok(map) => Remapped {
                map,
                differs: map.differs(),
                verdict: Ok(()),
            },
            Err(why) => refused(why),
        }
    }

    // The map of the vocabulary, or why there is none. Bytes and ends are two parameters, here and below: with a struct of both that has `Scannable` as its fact
    // the check does not know that a byte is below 256, and the proof of `scan` does not close.
    #[tactic(auto, unfolding(crate::specs::Calls::verdict_of))]
    fn read(bytes: &[u8], ends: &[u32]) -> Result<Self, Refusal>
        ensures says { told result ≡ verdict_of bytes.now ends.now }
        ensures maps { IfOk result (λ map. map.mapping ≡ map_of (ids bytes.now ends.now)) }
    {
        check(bytes, ends)?;
        let mut map = ByteRemapping::scan(bytes, ends);
        if let Some(b) = map.lowest_missing() {
            return Err(Refusal::ByteMissing(b));
        }
        map.fill();
        Ok(map)
    }

    // Gives each byte the id of the first entry that is this byte alone. `as` from u32 to usize and back, here and below: there is no From.
    fn scan(bytes: &[u8], ends: &[u32]) -> Self
        requires { Scannable bytes.now ends.now }
        ensures { read_all result.mapping ≡ ids bytes.now ends.now }
    {
        let mut map = ByteRemapping {
            mapping: [TokenId::NONE; ByteRemapping::BYTES],
        };
        let mut start = 0;
        for (i, &end) in ends.iter().enumerate() {
            if end - start == 1 {
                map.give(bytes[start as usize], i as u32);
            }
            start = end;
        }
        map
    }

    // Gives the byte its id, unless an earlier entry did.
    fn give(&mut self, b: u8, id: u32)
        ensures { self.new.mapping ≡ given self.old.mapping b id }
    {
        let at = usize::from(b);
        if self.mapping[at] == TokenId::NONE {
            self.mapping[at] = id;
        }
    }

    // Is it a byte of UTF-8 that has no id?
    fn lacks(&self, b: u8) -> bool
        ensures { result ≡ lacks_id b (slice_index self.now.mapping b) }
    {
        self.mapping[usize::from(b)] == TokenId::NONE && is_valid_utf8_byte(b)
    }

    // The lowest byte of UTF-8 that has no id.
    fn lowest_missing(&self) -> Option<u8>
        ensures { told_missing result ≡ missing 0 (read_all self.now.mapping) }
    {
        (0..=u8::MAX).find(|b| self.lacks(*b))
    }

    // A byte that has no id gets the filler.
    #[tactic(auto, using(crate::proofs::Filling::filled_by))]
    fn fill(&mut self)
        ensures { self.new.mapping ≡ map_of (read_all self.old.mapping) }
    {
        for id in &mut self.mapping {
            if *id == TokenId::NONE {
                *id = ByteRemapping::FILLER;
            }
        }
    }

    // Is some byte's id another number than the byte?
    fn differs(&self) -> bool
        ensures { result ≡ differs_from 0 self.now.mapping }
    {
        self.mapping
            .iter()
            .enumerate()
            .any(|(b, &id)| id as usize != b)
    }
}

// Can the byte stand in a text of UTF-8? C0 and C1 would start an overlong form, F5 to FF a code point past the last.
#[tactic(auto, using(crate::proofs::Bytes::utf8_by_range))]
pub fn is_valid_utf8_byte(b: u8) -> bool
    ensures { result ≡ utf8 b }
{
    !matches!(b, 0xC0 | 0xC1 | 0xF5..=0xFF)
}

// A refused map is all 0, with the flag off.
fn refused(why: Refusal) -> Remapped
    ensures { result ≡ refused_by why }
{
    Remapped {
        map: ByteRemapping {
            mapping: [0; ByteRemapping::BYTES],
        },
        differs: false,
        verdict: Err(why),
    }
}

// Can the vocabulary be scanned? Refuses 1 and 2.
#[tactic(auto, unfolding(crate::specs::Calls::verdict_of))]
fn check(bytes: &[u8], ends: &[u32]) -> Result<(), Refusal>
    ensures { MatchResult result (λ _. Scannable bytes.now ends.now) (λ why. verdict_of bytes.now ends.now ≡ verdict why) }
{
    if ends.len() > TokenId::VOCAB_MAX {
        return Err(Refusal::CountTooLarge);
    }
    if misshapen(bytes.len(), ends) {
        return Err(Refusal::WrongShape);
    }
    Ok(())
}

// Do the ends fall, or is the last one another than the byte count?
#[tactic(auto, using(crate::proofs::Ends::last_at), unfolding(crate::specs::Vocabulary::misshapen))]
fn misshapen(count: usize, ends: &[u32]) -> bool
    ensures { result ≡ misshapen_in count ends.now }
{
    falls(ends) || ends.last().copied().unwrap_or(0) as usize != count
}

// Is an end below the one before it?
#[tactic(auto, using(crate::proofs::Ends::falls_by))]
fn falls(ends: &[u32]) -> bool
    ensures { result ≡ falls_after 0 ends.now }
{
    !ends.is_sorted()
}
