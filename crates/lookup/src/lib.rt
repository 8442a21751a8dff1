// The first place of a plan in a lent list of plans, as records or as bytes.
#![tactic(auto)]

ghost use Rattle.std.specs.Prelude.{◌≤◌};
ghost use Rattle.regular.specs.SmallestAnswers.{DesignPlace, ColumnsPlace};

use plan_layout::{has_columns, plan_count, same_design};
use regular::{Design, FACTORS};

// The first place, from 1, of a record in a list, 0 if it is absent.
pub fn first_place(list: &[Design], d: Design) -> usize
    ensures { DesignPlace list.now d result }
{
    match list.iter().position(|c| same_design(*c, d)) {
        Some(i) => i + 1,
        None => 0,
    }
}

// The first place, from 1, of n columns without switches in a list of plans one after another, 0 if they are absent.
pub fn first_columns(n: usize, list: &[u8], c: [u8; FACTORS]) -> usize
    requires { (1 ≤ n) × (n ≤ 16) }
    ensures { ColumnsPlace n list.now c result }
{
    let count = plan_count(n, list.len());
    for i in 0..count {
        if has_columns(n, list, i, c) {
            return i + 1;
        }
    }
    0
}
