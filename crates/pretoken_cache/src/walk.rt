// Walks over pairs of slots.
ghost use Rattle.std.specs.Prelude.{◌≡◌, cond, Ok};
ghost use Rattle.token.specs.Walks.{walked};
ghost use Rattle.pretoken_cache.specs.Table.{slots, pair_mask, seek as sought, near, first_empty};
ghost use Rattle.pretoken_cache.specs.Calls.{glimpsed};
ghost use Rattle.pretoken_cache.specs.Told.{Inside, tells_probe};

use crate::Value;
use crate::size::Table;
use crate::slot::Keyed;
use token::Stop;

impl Table<'_> {
    // The walk of a name, which stops at its match if it is SOUGHT, and else at the first empty slot alone. A rule of the project has the loop break with
    // its stop as its value, which a `for` has not. Each walk says that it stopped inside: a `Stop` is the pair table's too, and knows no table. `as` cuts the hash, here and below, and is no loss on 64 bits.
    #[tactic(auto, using(crate::proofs::Turns::turn_fits, crate::proofs::Turns::turn_over, crate::proofs::Turns::turn_next))]
    fn walk<const SOUGHT: bool>(self, key: Keyed) -> Stop
        ensures stops { walked result ≡ cond SOUGHT (sought self.entry.words.now key.name) (first_empty self.entry.words.now key.name.h) }
        ensures inside { Inside result (slots self.entry.words.now) }
    {
        let n = self.slots();
        let mut i = (key.name.h as usize) & (n - 2);
        let mut left = n / 2;
        loop {
            if left == 0 {
                break Stop::Full;
            }
            if self.is_of::<SOUGHT>(i, key) {
                break Stop::Hit(i);
            }
            if self.is_of::<SOUGHT>(i + 1, key) {
                break Stop::Hit(i + 1);
            }
            if self.is_empty(i) {
                break Stop::Empty(i);
            }
            if self.is_empty(i + 1) {
                break Stop::Empty(i + 1);
            }
            i = (i + 2) & (n - 1);
            left -= 1;
        }
    }

    pub(crate) fn seek(self, key: Keyed) -> Stop
        ensures stops { walked result ≡ sought self.entry.words.now key.name }
        ensures inside { Inside result (slots self.entry.words.now) }
    {
        self.walk::<true>(key)
    }

    // With no look for matches.
    pub(crate) fn first_empty(self, key: Keyed) -> Stop
        ensures stops { walked result ≡ first_empty self.entry.words.now key.name.h }
        ensures inside { Inside result (slots self.entry.words.now) }
    {
        self.walk::<false>(key)
    }

    // The home pair, under the table's mask.
    #[tactic(auto, using(crate::proofs::Gets::home_fits, crate::proofs::Sizes::slots_most))]
    pub(crate) fn probed(self, mask: usize, key: Keyed) -> Option<Value>
        requires { mask ≡ pair_mask (slots self.words.now) }
        ensures { tells_probe (Ok result) ≡ glimpsed self.entry.words.now (near self.entry.words.now key.name) }
    {
        let i = (key.name.h as usize) & mask;
        if self.is_of::<true>(i, key) {
            return Some(self.slot(i).value);
        }
        if self.is_of::<true>(i + 1, key) {
            return Some(self.slot(i + 1).value);
        }
        None
    }
}
