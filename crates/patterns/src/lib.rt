// Pattern, resolution, distance counts, and which of two patterns is better, on plain numbers and arrays.
#![tactic(auto)]

ghost use Rattle.std.specs.Prelude.{◌≡◌, ◌≤◌, length};
ghost use Rattle.gf2.specs.Answers.{Tells};
ghost use Rattle.regular.specs.Pattern.{Better};
ghost use Rattle.counts.specs.Models.{PatternModel, DistanceModel, first_length};
ghost use Rattle.counts.specs.ShortWords.{CountBelow, NoneBelow};
ghost use Rattle.patterns.specs.Steps.{Products, LettersCounted, FromOne};

use bits::{double, letters, power};
use regular::{FACTORS, RUNS};

// The most words of a plan, with the empty one.
const WORDS: usize = 2048;

// The products of the first g words, that of the words at the bits of t at place t.
fn products(g: usize, words: [u16; FACTORS]) -> [u16; WORDS]
    requires { g ≤ 11 }
    ensures { Products g words result }
{
    let mut sums = [0u16; WORDS];
    for d in 0..g {
        double(words[d], power(d), &mut sums);
    }
    sums
}

// How many of the numbers have i letters, at place i.
fn letter_counts(list: &[u16]) -> [u16; 17]
    requires { length list.now ≤ 2048 }
    ensures { LettersCounted (length list.now) list.now result }
{
    let mut counts = [0u16; 17];
    for w in list {
        counts[letters(*w)] += 1;
    }
    counts
}

// The counts of lengths 1 to n, that of length l at place l - 1.
fn from_one(n: usize, counts: [u16; 17]) -> [u16; FACTORS]
    requires { n ≤ 16 }
    ensures { FromOne n counts result }
{
    let mut p = [0u16; FACTORS];
    p[..n].copy_from_slice(&counts[1..n + 1]);
    p
}

// The pattern of a plan from generators of its words: the count of length l at place l - 1.
pub fn pattern_of(n: usize, g: usize, words: [u16; FACTORS]) -> [u16; FACTORS]
    requires { (n ≤ 16) × (g ≤ 11) }
    ensures { PatternModel n g words result }
{
    let sums = products(g, words);
    let counts = letter_counts(&sums[..power(g)]);
    from_one(n, counts)
}

// The resolution from the pattern: the first length with a word, n + 1 if there is none.
pub fn resolution_of(n: usize, pattern: [u16; FACTORS]) -> u8
    requires { n ≤ 16 }
    ensures { result ≡ first_length n pattern }
{
    match pattern[..n].iter().position(|c| *c != 0) {
        Some(i) => (i + 1) as u8,
        None => (n + 1) as u8,
    }
}

// Whether some word has fewer than r letters. No word has more than n letters, so a plan without words has none, even where n + 1 is below r.
pub fn word_below(n: usize, r: usize, pattern: [u16; FACTORS]) -> bool
    requires { n ≤ 16 }
    ensures { Tells result (CountBelow n r pattern) (NoneBelow n r pattern) }
{
    let end = n.min(r.saturating_sub(1));
    pattern[..end].iter().any(|c| 0 < *c)
}

// How many of the first `end` runs have i low levels, at place i.
pub fn distances_of(end: usize, runs: [u16; RUNS]) -> [u16; 17]
    requires { end ≤ 128 }
    ensures { DistanceModel 16 end runs result }
{
    letter_counts(&runs[..end])
}

// Whether p has the smaller count at the first length from 3 to `last` where the two differ.
pub fn better(last: usize, p: [u16; FACTORS], q: [u16; FACTORS]) -> bool
    requires { last ≤ 16 }
    ensures { Tells result (Better last p q) (Better last p q → ⊥) }
{
    let end = last.max(2);
    p[2..end] < q[2..end]
}
