// From words to the standard columns of the plan that they generate: elimination with the last letter as pivot.
#![tactic(auto)]

ghost use Rattle.std.specs.Prelude.{◌≡◌, true, false, ℕ, ◌+◌, ◌-◌, ◌^◌, ◌<◌, ◌≤◌, length, get_or, replicate, is_some};
ghost use Rattle.std.specs.Int.Bits.{bit_xor};
ghost use Rattle.std.specs.Option.{unwrap_or};
ghost use Rattle.gf2.specs.Fill.{Filled};
ghost use Rattle.regular.specs.Words.{total, Generated, Independent};
ghost use Rattle.standard.specs.Finding.{StandardFound};
ghost use Rattle.words.specs.Model.{reduced, free_before};
ghost use Rattle.word_forms.specs.Turns.{column_of, Elimination, LastLetters};

use bits::Summand;
use regular::FACTORS;

// Whether every word is below `end`.
pub fn letters_below(ws: &[u16], end: usize) -> bool
    ensures { (result ≡ true → ((i : ℕ) → i < length ws.now → get_or ws.now i 0 < end))
        × (result ≡ false → ((i : ℕ) × ((i < length ws.now) × (end ≤ get_or ws.now i 0)))) }
{
    ws.iter().all(|&w| usize::from(w) < end)
}

// w less the pivot words of its letters. A word without its letter f is the smaller of the two that differ by a word whose last letter is f.
fn reduce(piv: &[u16; FACTORS], n: usize, w: u16) -> u16
    requires { (n ≤ 16) × LastLetters n piv.now }
    ensures { result ≡ reduced piv.now n w }
{
    let mut v = w;
    for f in (0..n).rev() {
        v = v.min(v ^ piv[f]);
    }
    v
}

// The pivot words of the words, the word with last letter f at place f, else 0; found exactly if the words are independent.
fn eliminate(n: usize, ws: &[u16]) -> Option<[u16; FACTORS]>
    requires { (n ≤ 16) × ((i : ℕ) → i < length ws.now → get_or ws.now i 0 < 2 ^ n) }
    ensures { Elimination n (length ws.now) ws.now (is_some result) (unwrap_or result (replicate 16 0)) }
{
    let mut piv = [0; FACTORS];
    for word in ws {
        let w = reduce(&piv, n, *word);
        if w == 0 {
            return None;
        }
        let last = w.ilog2() as usize;
        piv[last] = w;
    }
    Some(piv)
}

// The sum of `start` and the columns of the letters of w.
pub fn total_from<T: Summand>(start: T, columns: &[T], w: u16) -> T
    requires { length columns.now ≤ 16 }
    ensures { T.number result ≡ bit_xor (T.number start) (total (T.numbers columns.now) (length columns.now) w) }
{
    let mut t = start;
    for (g, column) in columns.iter().enumerate() {
        let sum = t.plus(*column);
        if bits::level(w, g) == 1 {
            t = sum;
        }
    }
    t
}

// The standard columns, read off the pivot words: the next unit for a factor with none, else the sum of the columns of its other letters.
fn read_columns(n: usize, piv: [u16; FACTORS]) -> [u8; FACTORS]
    requires { (n ≤ 16) × (free_before piv n ≤ 7) }
    ensures { Filled (column_of piv n) (replicate 16 0) n result }
{
    let mut a = [0; FACTORS];
    let mut unit: u16 = 1;
    for f in 0..n {
        let p = piv[f];
        if p == 0 {
            a[f] = unit as u8;
            unit += unit;
        } else {
            a[f] = total_from(0, &a[..f], p);
        }
    }
    a
}

// The standard columns of the plan that the words generate, found exactly if they are independent.
pub fn words_columns(n: usize, ws: &[u16]) -> Option<[u8; FACTORS]>
    requires { (n ≤ 16) × (length ws.now ≤ n) × (n ≤ length ws.now + 7) × ((i : ℕ) → i < length ws.now → get_or ws.now i 0 < 2 ^ n) }
    ensures { StandardFound n (n - length ws.now) (Independent (length ws.now) ws.now)
        (Generated n (length ws.now) ws.now) (is_some result) (unwrap_or result (replicate 16 0)) }
{
    let piv = eliminate(n, ws)?;
    Some(read_columns(n, piv))
}
