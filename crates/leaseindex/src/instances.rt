//! A set of a folder's instances.
ghost use Rattle.std.specs.Prelude.{◌≡◌, ◌↔◌, ◌==◌, ℕ, ◌<◌, ◌≤◌, ◌&&◌, ◌||◌, true, false, not};
ghost use Rattle.names.specs.declared.limits.TheConstants.{INSTANCES};
ghost use Rattle.leaseindex.specs.Instances.{has};

/// The number of words, for instances up to 4,096.
const WORDS: usize = 65;

/// A set of instances. One above 4,159 is never in it.
#[derive(Clone, Copy)]
pub struct Instances {
    /// A bit for each instance, 64 to a word.
    words: [u64; WORDS],
}

impl Instances {
    /// No instance.
    pub fn new() -> Self
        ensures { (i : ℕ) → has result i ≡ false }
    {
        Instances { words: [0; WORDS] }
    }

    /// Adds an instance.
    pub fn insert(&mut self, instance: u32)
        ensures { (i : ℕ) → i ≤ INSTANCES → has self.new i ≡ ((instance == i) || has self.old i) }
    {
        let place = (instance / 64) as usize;
        if place < WORDS {
            self.words[place] |= 1 << (instance % 64);
        }
    }

    /// Takes an instance out.
    pub fn remove(&mut self, instance: u32)
        ensures { (i : ℕ) → i ≤ INSTANCES → has self.new i ≡ (not (instance == i) && has self.old i) }
    {
        let place = (instance / 64) as usize;
        if place < WORDS {
            self.words[place] &= !(1 << (instance % 64));
        }
    }

    /// Adds the instances of another set.
    pub fn add_all(&mut self, others: &Instances)
        ensures { (i : ℕ) → has self.new i ≡ (has others.now i || has self.old i) }
    {
        for place in 0..WORDS {
            self.words[place] |= others.words[place];
        }
    }

    /// Whether it has no instance.
    pub fn is_empty(&self) -> bool
        ensures { (result ≡ true) ↔ ((i : ℕ) → has self.now i ≡ false) }
    {
        for word in self.words.iter() {
            if *word != 0 {
                return false;
            }
        }
        true
    }

    /// The lowest number that is not in it.
    pub fn lowest_missing(&self) -> u32
        ensures missing { result ≤ INSTANCES → has self.now result ≡ false }
        ensures below { (i : ℕ) → i < result → i ≤ INSTANCES → has self.now i ≡ true }
    {
        let mut full = 0;
        for word in self.words.iter() {
            if *word != u64::MAX {
                return full + word.trailing_ones();
            }
            full += 64;
        }
        full
    }
}
