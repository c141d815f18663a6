// Sets of write keys 0 to 255, by value (document 01, "How a thread moves").
#![tactic(auto)]

ghost use Rattle.std.specs.Prelude.{◌≤◌, ◌≡◌};
ghost use Rattle.run_keys.specs.Keys.{empty, singleton, holds, union, is_empty};
ghost use Rattle.run_keys.specs.Inner.KeySet.{keys_of, word_of, empty_set, zero_set, holds_of, learn_of, new_in, is_empty_of, Made, Joins, Told};

// Key k is in the set where bit k % 64 of word k / 64 is 1.
#[derive(Clone, Copy)]
pub struct KeySet {
    pub w0: u64,
    pub w1: u64,
    pub w2: u64,
    pub w3: u64,
}

// The keys of both sets, and how many of them the first did not hold.
#[derive(Clone, Copy)]
pub struct Joined {
    pub keys: KeySet,
    pub new: u32,
}

// The keys of one word that are new to another: their ones, counted.
fn new_keys(word: u64, known: u64) -> u32
    ensures { (result ≡ new_in word known) × (result ≤ 64) }
{
    u64::count_ones(word & !known)
}

impl KeySet {
    // No key.
    pub fn new() -> KeySet
        ensures { Made result empty_set empty }
    {
        KeySet {
            w0: 0,
            w1: 0,
            w2: 0,
            w3: 0,
        }
    }

    // Key 0 alone.
    pub fn zero() -> KeySet
        ensures { Made result zero_set (singleton 0) }
    {
        KeySet {
            w0: 1,
            w1: 0,
            w2: 0,
            w3: 0,
        }
    }

    // The word that has the key's bit.
    fn word(self, key: u8) -> u64
        ensures { result ≡ word_of self key }
    {
        if key < 64 {
            self.w0
        } else if key < 128 {
            self.w1
        } else if key < 192 {
            self.w2
        } else {
            self.w3
        }
    }

    // Whether the key is in the set.
    pub fn holds(self, key: u8) -> bool
        ensures { Told result (holds_of self key) (holds (keys_of self) key) }
    {
        (self.word(key) >> (key % 64)) % 2 == 1
    }

    // The set with one key more.
    pub fn learn(self, key: u8) -> KeySet
        ensures { Made result (learn_of self key) (union (singleton key) (keys_of self)) }
    {
        let bit = 1u64 << (key % 64);
        let mut more = self;
        if key < 64 {
            more.w0 = more.w0 | bit;
        } else if key < 128 {
            more.w1 = more.w1 | bit;
        } else if key < 192 {
            more.w2 = more.w2 | bit;
        } else {
            more.w3 = more.w3 | bit;
        }
        more
    }

    // The keys of both sets, and how many keys of the other are new.
    pub fn join(self, other: KeySet) -> Joined
        ensures { Joins result self other }
    {
        let new = new_keys(other.w0, self.w0)
            + new_keys(other.w1, self.w1)
            + new_keys(other.w2, self.w2)
            + new_keys(other.w3, self.w3);
        let keys = KeySet {
            w0: self.w0 | other.w0,
            w1: self.w1 | other.w1,
            w2: self.w2 | other.w2,
            w3: self.w3 | other.w3,
        };
        Joined {
            keys: keys,
            new: new,
        }
    }

    // Whether the set has no key.
    pub fn is_empty(self) -> bool
        ensures { Told result (is_empty_of self) (is_empty (keys_of self)) }
    {
        (self.w0 | (self.w1 | (self.w2 | self.w3))) == 0
    }
}
