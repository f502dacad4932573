//! Sets of cores.
ghost use Rattle.std.specs.Prelude.{◌≡◌, ◌≢◌, ℕ, ◌<◌, ◌≤◌, true, false, IfSome, IfNone, filter, length};
ghost use Rattle.std.specs.List.{range_with_len};
ghost use Rattle.snoop_blocks.specs.CoreSet.{has, LacksUpTo};

use std::marker::Model;

/// A set of cores: a bit for each of the 256 that there are at most.
#[derive(Clone, Copy, Default)]
pub struct CoreSet {
    words: [u64; 4],
}

impl Model for CoreSet {
    ghost use Rattle.std.specs.Prelude.{◌≡◌, ℕ, List, length};
    ghost use Rattle.snoop_blocks.specs.declared.core_set.CoreSet.TheInside.{Inside};

    ghost Value = { List ℕ };

    ghost view = { λ s. s.words };

    ghost invariant = { λ s. length s.words ≡ 4 };

    ghost inverse = { λ words. record { words = words } };
}

impl CoreSet {
    /// The set with no core in it.
    pub fn empty() -> CoreSet
        ensures { (k : ℕ) → has result k ≡ false }
    {
        CoreSet::default()
    }

    /// Puts the core into the set, or takes it out.
    pub fn set(&mut self, core: u32, is_member: bool)
        requires { core < 256 }
        ensures here { has self.new core ≡ is_member }
        ensures others { (k : ℕ) → k ≢ core → has self.new k ≡ has self.old k }
    {
        let bit = 1u64 << (core % 64);
        let word = &mut self.words[(core / 64) as usize];
        if is_member {
            *word |= bit;
        } else {
            *word &= !bit;
        }
    }

    /// Puts the core into the set, if it is one of the 256.
    pub fn insert(&mut self, core: u32)
        ensures here { core < 256 → has self.new core ≡ true }
        ensures others { (k : ℕ) → k ≢ core → has self.new k ≡ has self.old k }
    {
        if core < 256 {
            self.set(core, true);
        }
    }

    /// Whether the core is in the set.
    pub fn has(&self, core: u32) -> bool
        ensures { result ≡ has self.now core }
    {
        core < 256 && (self.words[(core / 64) as usize] >> (core % 64)) % 2 == 1
    }

    /// The first core of the set from `from` on.
    pub fn next(&self, from: u32) -> Option<u32>
        ensures some { IfSome result (λ core. (from ≤ core) × (core < 256) × (has self.now core ≡ true) × LacksUpTo self.now from core) }
        ensures none { IfNone result ((k : ℕ) → from ≤ k → has self.now k ≡ false) }
    {
        let mut from = from;
        while from < 256 {
            let left = self.words[(from / 64) as usize] >> (from % 64);
            if left != 0 {
                return Some(from + left.trailing_zeros());
            }
            from = (from / 64 + 1) * 64;
        }
        None
    }

    /// How many of so many cores are in the set.
    pub fn count(&self, cores: u32) -> usize
        ensures { result ≡ length (filter (has self.now) (range_with_len 0 cores)) }
    {
        (0..cores).filter(|core| self.has(*core)).count()
    }
}
