//! The numbers below 4,096 that are free, as a bitmap on two levels, so that the least one is found in
//! two steps and no call takes memory.
//!
//! Bit `j` of word `i` is set exactly where the number `64 * i + j` is free, and bit `i` of the summary
//! exactly where word `i` isn't zero.
ghost use Rattle.std.specs.Prelude.{◌≡◌, ℕ, ◌+◌, ◌*◌, ◌<◌, ◌==◌, ◌||◌, ◌&&◌, not, Bool, true, false, IfOk, IfSome, IfNone};

use crate::bits::{has_bit, lowest_bit, with_bit, without_bit};
use reg_keys::DESCRIPTORS;
use std::alloc::{AllocError, Global};

/// The words of the bitmap.
const WORDS: usize = 64;

/// The bits of a word.
const WORD_BITS: u32 = u64::BITS;

/// The numbers below 4,096 that are free.
#[derive(Drop)]
pub(crate) struct FreeNumbers {
    summary: u64,
    words: Vec<u64>,
}

impl FreeNumbers {
    ghost use Rattle.event_mgr.specs.FreeNumbers.{ShowsOut, put_out, put_in};
    ghost use Rattle.event_mgr.specs.Numbers.{IsLeastFree, AreAllOut};

    /// All numbers are free.
    pub(crate) fn all(alloc: Global) -> Result<FreeNumbers, AllocError>
        ensures { IfOk result (λ f. ShowsOut (λ n. false) f) }
    {
        let words = vec![in alloc; u64::MAX; WORDS]?;
        Ok(FreeNumbers {
            summary: u64::MAX,
            words,
        })
    }

    /// Takes the least free number.
    pub(crate) fn take_least(&mut self) -> Option<u16>
        requires { (out : ℕ → Bool) × ShowsOut out self.old }
        ensures taken { IfSome result (λ n. (out : ℕ → Bool) → ShowsOut out self.old
            → IsLeastFree out n × ShowsOut (put_out n out) self.new) }
        ensures none { IfNone result
            ((out : ℕ → Bool) → ShowsOut out self.old → AreAllOut out × ShowsOut out self.new) }
    {
        if self.summary == 0 {
            return None;
        }
        let place = lowest_bit(self.summary);
        let bit = lowest_bit(self.words[place as usize]);
        self.put_out(place, bit);
        Some((WORD_BITS * place + bit) as u16)
    }

    /// Makes a number free, if it is below 4,096 and isn't free.
    pub(crate) fn put_back(&mut self, number: u16) -> bool
        requires { (out : ℕ → Bool) × ShowsOut out self.old }
        ensures back { (out : ℕ → Bool) → ShowsOut out self.old → result ≡ true
            → (number < DESCRIPTORS) × (out number ≡ true) × ShowsOut (put_in number out) self.new }
        ensures not_out { (out : ℕ → Bool) → ShowsOut out self.old → result ≡ false
            → (number < DESCRIPTORS → out number ≡ false) × ShowsOut out self.new }
    {
        if number as u64 >= DESCRIPTORS {
            return false;
        }
        let place = number as u32 / WORD_BITS;
        let bit = number as u32 % WORD_BITS;
        if has_bit(self.words[place as usize], bit) {
            return false;
        }
        self.put_in(place, bit);
        true
    }

    fn put_out(&mut self, place: u32, bit: u32)
        requires within { (place < 64) × (bit < 64) }
        requires shows { (out : ℕ → Bool) × ShowsOut out self.old }
        ensures { (out : ℕ → Bool) → ShowsOut out self.old
            → ShowsOut (put_out (64 * place + bit) out) self.new }
    {
        let left = without_bit(self.words[place as usize], bit);
        self.words[place as usize] = left;
        if left == 0 {
            self.summary = without_bit(self.summary, place);
        }
    }

    fn put_in(&mut self, place: u32, bit: u32)
        requires within { (place < 64) × (bit < 64) }
        requires shows { (out : ℕ → Bool) × ShowsOut out self.old }
        ensures { (out : ℕ → Bool) → ShowsOut out self.old
            → ShowsOut (put_in (64 * place + bit) out) self.new }
    {
        let word = with_bit(self.words[place as usize], bit);
        self.words[place as usize] = word;
        self.summary = with_bit(self.summary, place);
    }
}
