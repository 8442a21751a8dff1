// From standard columns to the reduced words of their plan.
#![tactic(auto)]

ghost use Rattle.std.specs.Prelude.{◌≡◌, ◌*◌, ◌^◌, ◌<◌, ◌≤◌};
ghost use Rattle.generators.specs.WordTable.{WordTable};

use regular::FACTORS;
use word_forms::total_from;

// The set of the one factor f.
fn letter(f: usize) -> u16
    requires { f < 16 }
    ensures { result ≡ 1 * 2 ^ f }
{
    1u16 << f
}

// The reduced words of the plan of standard columns, by rising last letter, zeros after them.
pub fn generators(n: usize, columns: [u8; FACTORS]) -> [u16; FACTORS]
    requires { n ≤ 16 }
    ensures { WordTable n columns result }
{
    let mut words = [0u16; FACTORS];
    let mut basics = [0u16; FACTORS];
    let mut unit = 1;
    let mut m = 0;
    for f in 0..n {
        let c = u16::from(columns[f]);
        if c == unit {
            basics[m] = letter(f);
            unit += unit;
            m += 1;
        } else {
            let g = f - m;
            words[g] = total_from(letter(f), &basics[..m], c);
        }
    }
    words
}
