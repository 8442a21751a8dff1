// From the signs of words to the mask of their plan, and from the mask to the signs of its words.
// A sign takes the place of letter A: where a word is minus, the word with A and a run in which A is low have an even number of low levels.
#![tactic(auto)]

ghost use Rattle.std.specs.Prelude.{◌≡◌, ◌≤◌, length};
ghost use Rattle.regular.specs.Words.{Fraction};
ghost use Rattle.regular.specs.Columns.{run_of, Allowed};
ghost use Rattle.signs.specs.SignLetter.{Solvable, SignedAtA};

use regular::FACTORS;

// The words with their signs in the place of letter A.
fn signs_at_a(words: &[u16], signs: u16) -> [u16; FACTORS]
    requires { length words.now ≤ 16 }
    ensures { SignedAtA (length words.now) words.now signs result }
{
    let mut signed = [0u16; FACTORS];
    for (i, &w) in words.iter().enumerate() {
        signed[i] = w ^ bits::level(w, 0) ^ bits::level(signs, i);
    }
    signed
}

// The run of the words with their signs that is allowed as a mask.
pub fn mask_of_signs(n: usize, words: &[u16], signs: u16) -> u16
    requires { Solvable n (length words.now) words.now }
    ensures { Fraction n (length words.now) words.now signs result
        × Allowed n (Fraction n (length words.now) words.now signs) result }
{
    if signs == 0 {
        return 0;
    }
    let signed = signs_at_a(words, signs);
    let solved = word_forms::words_columns(n, &signed[..words.len()]).unwrap();
    column_forms::unit_run(n, 0, solved) ^ 1
}

// The signs of the first g words where the mask is switched: word i is minus if it has an odd number of the mask's factors.
pub fn signs_of(g: usize, words: [u16; FACTORS], mask: u16) -> u16
    requires { g ≤ 16 }
    ensures { result ≡ run_of words g mask }
{
    let mut signs: u16 = 0;
    for i in 0..g {
        signs |= bits::parity(mask, words[i]) << i;
    }
    signs
}
