// Numbering over any bank of keys: each position gets the first position with the same key.
#![tactic(auto)]

ghost use Rattle.std.specs.Prelude.{◌≡◌, ℕ, ◌%◌, ◌<◌, ◌≤◌, Bool, true, List, length, MatchOption, ◌≢◌, slice_index};
ghost use Rattle.std.specs.List.{AllZip};
ghost use Rattle.numbering.specs.Keys.{Equivalence, HashAlike, Fresh, Latest, Entry, Linked, Numbered};
ghost use Rattle.numbering.specs.Lists.{hash_of};

// Keys at the positions below a count. The hash is free: an implementation shows that sameness is an equivalence,
// and that same keys hash alike.
pub trait KeyBank {
    ghost count: { Self → ℕ };

    ghost same: { Self → ℕ → ℕ → Bool };

    ghost hashed: { Self → ℕ → ℕ };

    ghost equivalence: { (b : Self) → Equivalence (count b) (same b) };

    ghost alike: { (b : Self) → HashAlike (count b) (same b) (hashed b) };

    fn len(&self) -> usize
        ensures { result ≡ count self.now };

    fn hash(&self, i: usize) -> u32
        requires { i < count self.now }
        ensures { result ≡ hashed self.now i };

    fn is_same(&self, i: usize, j: usize) -> bool
        requires { (i < count self.now) × (j < count self.now) }
        ensures { result ≡ same self.now i j };
}

// The first position with the key of position i, along the chain of its bucket: the last step of a numbering, or a
// question put behind the keys that are linked so far.
pub fn lookup<B: KeyBank>(
    bank: &B,
    links: &[Option<u16>],
    head: Option<u16>,
    i: usize,
) -> Option<u16>
    requires within { i < B.count bank.now }
    requires long { i ≤ length links.now }
    requires linked { Linked (B.same bank.now) (B.hashed bank.now) links.now i }
    requires headed { Latest (Entry (B.same bank.now) (B.hashed bank.now) (B.hashed bank.now i % 256)) i head }
    ensures { MatchOption result ((j : ℕ) → j < i → Entry (B.same bank.now) (B.hashed bank.now) (B.hashed bank.now i % 256) j → B.same bank.now j i ≢ true) (λ f. (f < i) × (Fresh (B.same bank.now) f) × (B.same bank.now f i ≡ true)) }
{
    let mut cursor = head;
    while let Some(at) = cursor {
        if bank.is_same(usize::from(at), i) {
            return Some(at);
        }
        cursor = links[usize::from(at)];
    }
    None
}

// Gives each position of the bank the first position with the same key. What stands past the bank's count stays;
// `links` is memory to work in.
pub fn number<B: KeyBank>(bank: &B, first: &mut [u16], links: &mut [Option<u16>])
    requires few { B.count bank.now < 65536 }
    requires long { B.count bank.now ≤ length first.old }
    requires room { B.count bank.now ≤ length links.old }
    ensures numbered { Numbered (B.same bank.now) first.new (B.count bank.now) }
    ensures rest { (j : ℕ) → B.count bank.now ≤ j → slice_index first.new j ≡ slice_index first.old j }
{
    let mut heads: [Option<u16>; 256] = [None; 256];
    // Stays: i is the position that the bank is asked about, and indexes two slices.
    for i in 0..bank.len() {
        let bucket = (bank.hash(i) % 256) as usize;
        match lookup(bank, links, heads[bucket], i) {
            Some(f) => first[i] = f,
            None => {
                first[i] = i as u16;
                links[i] = heads[bucket];
                heads[bucket] = Some(i as u16);
            }
        }
    }
}

// A hash of a key that is a list of items.
pub fn hash_items<T: Copy + Into<u32>>(items: &[T]) -> u32
    ensures { (numbers : List ℕ) × (AllZip T.converts items.now numbers) × (result ≡ hash_of numbers) }
{
    let mut h: u32 = 0;
    for item in items {
        let number: u32 = (*item).into();
        h = h.wrapping_mul(31).wrapping_add(number);
    }
    h
}
