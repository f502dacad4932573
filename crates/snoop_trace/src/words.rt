//! The words of a block, as a value.
ghost use Rattle.std.specs.Prelude.{◌≡◌, ◌<◌, ◌≤◌, ℕ, List, Some, IfSome, length, refl, slice_set};
ghost use Rattle.snoop_trace.specs.Words.{word_at, zero_words};

use std::alloc::AllocError;
use std::marker::Model;

/// The most words that a block may have.
pub(crate) const MAX_WORDS: u32 = 64;

/// The words of a block: 64 values, of which those that the block doesn't have are 0.
#[derive(Clone, Copy, Debug, PartialEq, Eq)]
pub struct Words {
    values: [u64; 64],
}

impl Model for Words {
    ghost use Rattle.std.specs.Prelude.{◌≡◌, ℕ, List, length};
    ghost use Rattle.snoop_trace.specs.declared.words.Words.TheInside.{Inside};

    ghost Value = { List ℕ };

    ghost view = { λ w. w.values };

    ghost invariant = { λ w. length w.values ≡ 64 };

    ghost inverse = { λ values. record { values = values } };
}

/// How a machine holds the words of a block: all that clauses see of them are 64 values.
pub trait Block: Copy {
    ghost use Rattle.snoop_trace.specs.Words.{AreZeroFrom};

    // How many words it has; the values from there on are 0.
    ghost count: { ℕ };

    // The 64 values.
    ghost words: { Self → List ℕ };

    // The block of these values.
    ghost block: { List ℕ → Self };

    // Nothing is lost.
    ghost undoes: { (x : Self) → block (words x) ≡ x };

    /// A block in which each word is 0.
    fn zero() -> Self
        requires { count ≤ 64 }
        ensures { words result ≡ zero_words };

    /// The value of a word.
    fn at(self, word: u32) -> u64
        requires { word < count }
        ensures { result ≡ word_at (words self) word };

    /// The same block with this value in one word.
    fn with(self, word: u32, value: u64) -> Self
        requires { word < count }
        ensures { words result ≡ slice_set (words self) word value };

    /// The 64 values.
    fn to_words(self) -> Words
        requires { count ≤ 64 }
        ensures value { result ≡ words self }
        ensures padded { AreZeroFrom count (words self) };
}

/// A block of `N` words, and no more memory than that.
#[derive(Copy)]
pub struct Few<const N: usize> {
    values: [u64; N],
}

impl<const N: usize> Model for Few<N> {
    ghost use Rattle.std.specs.Prelude.{◌≡◌, ℕ, List, length, take};
    ghost use Rattle.std.proofs.Common.{ap};
    ghost use Rattle.snoop_trace.specs.Words.{padded, taken-padded};

    ghost Value = { List ℕ };

    ghost view = { λ w. padded N w.values };

    ghost invariant = { λ w. length w.values ≡ N };

    ghost inverse = { λ values. record { values = take N values } };

    ghost inverse_ok = { λ w h. ap (λ x. record { values = x }) (taken-padded N w.values h) };
}

impl<const N: usize> Clone for Few<N> {
    ghost use Rattle.std.specs.Prelude.{◌≡◌, ⊤};

    ghost is_clone = { λ x y. y ≡ x };

    ghost is_infallible = { λ _. ⊤ };

    fn clone(&self) -> Result<Self, AllocError> {
        Ok(*self)
    }
}

impl<const N: usize> Block for Few<N> {
    ghost count = { N };

    ghost words = { λ values. values };

    ghost block = { λ values. values };

    ghost undoes = { λ values. refl };

    #[tactic(auto, using(crate::proofs::WordPlaces::padded_zero))]
    fn zero() -> Self {
        Few { values: [0; N] }
    }

    #[tactic(auto, using(crate::proofs::WordPlaces::padded_at))]
    fn at(self, word: u32) -> u64 {
        self.values[word as usize]
    }

    #[tactic(auto, using(crate::proofs::WordPlaces::padded_set))]
    fn with(self, word: u32, value: u64) -> Self {
        let mut values = self.values;
        values[word as usize] = value;
        Few { values }
    }

    fn to_words(self) -> Words {
        let mut values = [0; 64];
        values[..N].copy_from_slice(&self.values);
        Words { values }
    }
}

/// A block's words in the hand of a machine. Clauses see the 64 values, however they are held.
#[derive(Copy)]
pub struct Kept<B: Block> {
    block: B,
}

impl<B: Block> Model for Kept<B> {
    ghost use Rattle.std.specs.Prelude.{◌≡◌, ℕ, List};
    ghost use Rattle.std.proofs.Common.{ap};

    ghost Value = { List ℕ };

    ghost view = { λ k. B.words k.block };

    ghost inverse = { λ values. record { block = B.block values } };

    ghost inverse_ok = { λ k h. ap (λ x. record { block = x }) (B.undoes k.block) };
}

impl<B: Block> Clone for Kept<B> {
    ghost use Rattle.std.specs.Prelude.{◌≡◌, ⊤};

    ghost is_clone = { λ x y. y ≡ x };

    ghost is_infallible = { λ _. ⊤ };

    fn clone(&self) -> Result<Self, AllocError> {
        Ok(*self)
    }
}

impl<B: Block> Kept<B> {
    ghost use Rattle.snoop_trace.specs.Words.{AreZeroFrom};

    /// A block in which each word is 0.
    pub fn zero() -> Self
        requires { B.count ≤ 64 }
        ensures { result ≡ zero_words }
    {
        Kept { block: B::zero() }
    }

    /// The value of a word.
    pub fn at(self, word: u32) -> u64
        requires { word < B.count }
        ensures { result ≡ word_at self word }
    {
        self.block.at(word)
    }

    /// The same block with this value in one word.
    pub fn with(self, word: u32, value: u64) -> Self
        requires { word < B.count }
        ensures { result ≡ slice_set self word value }
    {
        Kept {
            block: self.block.with(word, value),
        }
    }

    /// The 64 values.
    pub fn to_words(self) -> Words
        requires { B.count ≤ 64 }
        ensures value { result ≡ self }
        ensures padded { AreZeroFrom B.count self }
    {
        self.block.to_words()
    }
}

impl Words {
    /// The words of a block in which each is 0.
    pub fn zero() -> Words
        ensures { result ≡ zero_words }
    {
        Words { values: [0; 64] }
    }

    /// The value of the word, or `None` where there is none.
    pub fn get(&self, word: u32) -> Option<u64>
        ensures inside { word < 64 → result ≡ Some (word_at self.now word) }
        ensures outside { IfSome result (λ _. word < 64) }
    {
        self.values.get(word as usize).copied()
    }

    /// The value of a word.
    pub fn at(&self, word: u32) -> u64
        requires { word < 64 }
        ensures { result ≡ word_at self.now word }
    {
        self.values[word as usize]
    }

    /// The same words with this value in one of them.
    pub fn with(self, word: u32, value: u64) -> Words
        requires { word < 64 }
        ensures { result ≡ slice_set self word value }
    {
        let mut values = self.values;
        values[word as usize] = value;
        Words { values }
    }

    /// There are 64 of them. This does nothing: a proof calls it for what it ensures.
    pub fn are_whole(&self)
        ensures { length self.now ≡ 64 }
    {
        let _ = &self.values;
    }
}
