// Matrices of bits, held in words of 32 bits, w words to a row: bit v of row u is bit v mod 32 of word w u + v / 32.
ghost use Rattle.std.specs.Prelude.{◌≡◌, ℕ, ◌+◌, ◌*◌, ◌<◌, ◌≤◌, length, slice_index};
ghost use Rattle.graphs.specs.Matrix.{bit_at, row_at, Put, Joined, Blank};

pub fn has(m: &[u32], w: usize, u: usize, v: usize) -> bool
    requires row { w * u + w ≤ length m.now }
    requires column { v < 32 * w }
    ensures { result ≡ bit_at w m.now u v }
{
    (m[w * u + v / 32] >> (v % 32)) % 2 == 1
}

pub fn put(m: &mut [u32], w: usize, u: usize, v: usize)
    requires row { w * u + w ≤ length m.old }
    requires column { v < 32 * w }
    ensures { Put w m.old m.new u v }
{
    m[w * u + v / 32] |= 1 << (v % 32);
}

// Joins the bits of a row to row u; a row of m has as many words.
pub fn join(m: &mut [u32], u: usize, row: &[u32])
    requires { length row.now * u + length row.now ≤ length m.old }
    ensures { Joined (length row.now) m.old m.new row.now u }
{
    let at = row.len() * u;
    for i in 0..row.len() {
        m[at + i] |= row[i];
    }
}

// Clears the first n words. What stands past them stays.
pub fn clear(m: &mut [u32], n: usize)
    requires { n ≤ length m.old }
    ensures blank { Blank n m.new }
    ensures rest { (i : ℕ) → n ≤ i → slice_index m.new i ≡ slice_index m.old i }
{
    for i in 0..n {
        m[i] = 0;
    }
}

// A matrix in words of its own, WIDTH words to a row. Its methods are the functions above, at its words.
#[derive(Clone, Copy, PartialEq, Eq, Debug)]
pub struct BitMatrix<const WIDTH: usize, const WORDS: usize> {
    pub words: [u32; WORDS],
}

// 256 rows of 256 columns.
pub type Square = BitMatrix<8, 2048>;

impl<const WIDTH: usize, const WORDS: usize> BitMatrix<WIDTH, WORDS> {
    // A matrix with no bit set.
    pub fn new() -> Self
        ensures { Blank WORDS result.words }
    {
        BitMatrix { words: [0; WORDS] }
    }

    pub fn has(&self, u: usize, v: usize) -> bool
        requires row { WIDTH * u + WIDTH ≤ WORDS }
        requires column { v < 32 * WIDTH }
        ensures { result ≡ bit_at WIDTH self.now.words u v }
    {
        has(&self.words, WIDTH, u, v)
    }

    pub fn put(&mut self, u: usize, v: usize)
        requires row { WIDTH * u + WIDTH ≤ WORDS }
        requires column { v < 32 * WIDTH }
        ensures { Put WIDTH self.old.words self.new.words u v }
    {
        put(&mut self.words, WIDTH, u, v);
    }

    // The words of row u.
    pub fn row(&self, u: usize) -> &[u32]
        requires { WIDTH * u + WIDTH ≤ WORDS }
        ensures value { result.now ≡ row_at WIDTH self.now.words u }
        ensures len { length result.now ≡ WIDTH }
    {
        let words = &self.words[..];
        let at = WIDTH * u;
        &words[at..at + WIDTH]
    }

    // Joins the bits of a row of as many words to row u.
    pub fn join(&mut self, u: usize, row: &[u32])
        requires within { WIDTH * u + WIDTH ≤ WORDS }
        requires wide { length row.now ≡ WIDTH }
        ensures { Joined WIDTH self.old.words self.new.words row.now u }
    {
        join(&mut self.words, u, row);
    }

    // Clears every bit.
    pub fn clear(&mut self)
        ensures { Blank WORDS self.new.words }
    {
        clear(&mut self.words, WORDS);
    }
}
