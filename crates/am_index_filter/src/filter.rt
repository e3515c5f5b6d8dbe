//! One filter.

ghost use Rattle.std.specs.Prelude.{◌≡◌, ◌<◌, ◌^◌, ◌%◌, ℕ, true, length, IfOk, false};
ghost use Rattle.std.specs.List.{fold, All};
ghost use Rattle.am_index_filter.specs.Covers.{is_marked, empty_for, marked, marks as marks_of};
ghost use Rattle.am_index_filter.specs.Covers.{place as place_of};

use am_record::NoMemory;
use std::alloc::Global;
use std::marker::Model;

/// A word is for so many numbers.
const NUMBERS_A_WORD: usize = 4;

/// A filter has fewer words.
const MOST: usize = 1 << 32;

/// Words in which numbers have their bits, seen as these. It never forgets a number.
#[derive(Drop)]
pub struct Filter {
    words: Vec<u64>,
}

impl Model for Filter {
    ghost use Rattle.std.specs.Prelude.{List, ℕ, ◌<◌, ◌^◌, length};

    ghost Value = { List ℕ };

    ghost view = { λ f. f.words.items };

    ghost invariant = { λ f. (0 < length f.words.items) × (length f.words.items < 2 ^ 32) };
}

impl Filter {
    /// A filter made for so many numbers, which covers none.
    ///
    /// # Errors
    /// NoMemory, where memory was refused, or it would be for 2^34 numbers or more.
    pub fn new(alloc: Global, numbers: usize) -> Result<Filter, NoMemory>
        ensures empty { IfOk result (λ f. f ≡ empty_for numbers) }
        ensures none { IfOk result (λ f. (n : ℕ) → is_marked f n ≡ false) }
    {
        let count = numbers / NUMBERS_A_WORD + 1;
        if count >= MOST {
            return Err(NoMemory);
        }
        let mut words = Vec::new(alloc);
        words.resize(count, 0)?;
        Ok(Filter { words })
    }

    // The place of the number's word.
    fn place(&self, number: u64) -> usize
        ensures value { result ≡ place_of (length self.now) number }
        ensures within { result < length self.now }
    {
        (((number >> 32) * self.words.len() as u64) >> 32) as usize
    }

    /// Whether the number may have been entered: false only where it was not.
    pub fn may_have(&self, number: u64) -> bool
        ensures { result ≡ is_marked self.now number }
    {
        let bits = marks(number);
        self.words[self.place(number)] & bits == bits
    }

    /// Enters the number: from now on it is covered. Takes no memory.
    pub fn enter(&mut self, number: u64)
        ensures exact { self.new ≡ marked self.old number }
        ensures covered { is_marked self.new number ≡ true }
        ensures kept { (n : ℕ) → is_marked self.old n ≡ true → is_marked self.new n ≡ true }
    {
        let place = self.place(number);
        self.words[place] |= marks(number);
    }

    /// Enters all of the numbers. Takes no memory. No word waits for another, so they come from memory at once.
    pub fn enter_all(&mut self, numbers: &[u64])
        ensures exact { self.new ≡ fold marked self.old numbers.now }
        ensures covered { All (λ n. is_marked self.new n ≡ true) numbers.now }
        ensures kept { (n : ℕ) → is_marked self.old n ≡ true → is_marked self.new n ≡ true }
    {
        let _ = &self.words;
        for number in numbers {
            self.enter(*number);
        }
    }
}

// One bit of a word.
fn mark(number: u64) -> u64
    ensures value { result ≡ 2 ^ (number % 64) }
    ensures below { result < 2 ^ 64 }
{
    1 << (number % 64)
}

// The bits of a number in its word.
#[tactic(auto, unfolding(crate::specs::Covers::marks))]
fn marks(number: u64) -> u64
    ensures { result ≡ marks_of number }
{
    mark(number) | mark(number >> 6) | mark(number >> 12) | mark(number >> 18) | mark(number >> 24)
}
