// Digits of runs, words and columns, bytes and numbers as indices, and the doubling of a table.
#![tactic(auto)]

ghost use Rattle.std.specs.Prelude.{◌≡◌, List, ℕ, ◌+◌, ◌^◌, ◌<◌, ◌≤◌, length};
ghost use Rattle.std.specs.Int.Bits.{bit_xor};
ghost use Rattle.std.specs.Int.Count.{ones};
ghost use Rattle.gf2.specs.Digits.{bit, odd};
ghost use Rattle.gf2.specs.Doubling.{Doubling};
ghost use Rattle.bits.specs.Widths.{AsNumbers, own};

// An unsigned number of some width, summed without carry.
pub trait Summand: Copy {
    ghost number: { Self → ℕ };

    ghost numbers: { List Self → List ℕ };

    // The exclusive or of the two.
    fn plus(self, other: Self) -> Self
        ensures { number result ≡ bit_xor (number self) (number other) };

    ghost laws: { AsNumbers number numbers };
}

impl Summand for u8 {
    ghost number = { λ x. x };

    ghost numbers = { λ xs. xs };

    ghost laws = { own };

    fn plus(self, other: u8) -> u8 {
        self ^ other
    }
}

impl Summand for u16 {
    ghost number = { λ x. x };

    ghost numbers = { λ xs. xs };

    ghost laws = { own };

    fn plus(self, other: u16) -> u16 {
        self ^ other
    }
}

// 1 if j and c share an odd number of bits, else 0.
pub fn parity(j: u16, c: u16) -> u16
    ensures { (result ≡ odd j c) × (result < 2) }
{
    let x = j & c;
    let x = x ^ (x >> 8);
    let x = x ^ (x >> 4);
    let x = x ^ (x >> 2);
    (x ^ (x >> 1)) & 1
}

// Bit f of x.
pub fn level(x: u16, f: usize) -> u16
    requires { f < 16 }
    ensures { (result ≡ bit f x) × (result < 2) }
{
    (x >> f) & 1
}

// The number of letters of w.
pub fn letters(w: u16) -> usize
    ensures { (result ≡ ones w) × (result ≤ 16) }
{
    w.count_ones() as usize
}

// A run or a word as an index.
pub fn wide(x: u16) -> usize
    ensures { (result ≡ x) × (result < 65536) }
{
    usize::from(x)
}

// A column or another byte as an index.
pub fn as_index(column: u8) -> usize
    ensures { (result ≡ column) × (result < 256) }
{
    usize::from(column)
}

// 2^k.
pub fn power(k: usize) -> usize
    requires { k ≤ 16 }
    ensures { (result ≡ 2 ^ k) × (result ≤ 65536) }
{
    1usize << k
}

// Puts each of the first half numbers of a table, exclusive or `by`, half places further.
pub fn double<T: Summand>(by: T, half: usize, table: &mut [T])
    requires { half + half ≤ length table.old }
    ensures { Doubling (T.number by) half half (T.numbers table.old) (T.numbers table.new) }
{
    for k in 0..half {
        table[half + k] = table[k].plus(by);
    }
}
