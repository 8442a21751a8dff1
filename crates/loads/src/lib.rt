// A load of plans from a seed: columns that nobody picked, by draws from a state of 32 bits.
#![tactic(auto)]

ghost use Rattle.std.specs.Prelude.{◌≡◌, ℕ, ◌+◌, ◌-◌, ◌%◌, ◌^◌, ◌<◌, ◌≤◌, List, length};
ghost use Rattle.regular.specs.Answers.{refusal_of, load_answer, state_answer};
ghost use Rattle.regular.specs.Columns.{Column};
ghost use Rattle.regular.specs.Refusals.{Lowest};
ghost use Rattle.regular.specs.Loads.{yielded, FirstUnused, load_faults, LoadsDesign, LoadsInto};
ghost use Rattle.column_forms.specs.Tables.{Seen};
ghost use Rattle.loads.specs.Drawing.{Roomy, ColumnsDrawn, PlacesSwapped, Loaded};

use admission::check_size;
use bits::power;
use plan_layout::lend_plan;
use regular::{FACTORS, Load, NUMBERS, Refusal};

// What a draw adds to the state.
const STEP: u32 = 2654435769;

// The columns that were drawn, and the state after the draws.
#[derive(Clone, Copy)]
struct Drawn {
    state: u32,
    columns: [u8; FACTORS],
}

// The state after one more draw.
fn next_state(state: u32) -> u32
    ensures { result ≡ (state + 2654435769) % 2 ^ 32 }
{
    state.wrapping_add(STEP)
}

// What a draw yields, by the state after it.
fn draw(state: u32) -> u32
    ensures { (result ≡ yielded state) × (result < 2 ^ 32) }
{
    state ^ (state >> 15)
}

// Its remainder by k.
fn remainder(state: u32, k: usize) -> usize
    requires { 0 < k }
    ensures { (result ≡ yielded state % k) × (result < k) }
{
    draw(state) as usize % k
}

// Column x + 1 or, if it is marked, the next one upward that is not, where f of the columns 1 to `last` are marked: after f of them in a row the next is
// not.
fn first_unused(last: usize, x: usize, f: usize, seen: &[u8; NUMBERS]) -> usize
    requires { (x < last) × (f < last) × (last < 128) × (length seen.now ≡ 128) }
    ensures { (0 < result) × (result ≤ last) × ((c : List ℕ) → Seen c f seen.now → FirstUnused last (Column f c) (x + 1) result) }
{
    let mut column = x + 1;
    for _ in 0..f {
        if seen[column] == 0 {
            return column;
        }
        column = column % last + 1;
    }
    column
}

// The columns before swapping: 1, 2, 4 and so on for the m basic factors, then those that are drawn.
fn draw_columns(n: usize, m: usize, seed: u32) -> Drawn
    requires { Roomy n m }
    ensures { ColumnsDrawn n m seed result.columns result.state }
{
    let last = power(m) - 1;
    let mut columns = [0u8; FACTORS];
    let mut seen = [0u8; NUMBERS];
    seen[0] = 1;
    for f in 0..m {
        let x = power(f);
        columns[f] = x as u8;
        seen[x] = 1;
    }
    let mut state = seed;
    for f in m..n {
        state = next_state(state);
        let x = first_unused(last, remainder(state, last), f, &seen);
        columns[f] = x as u8;
        seen[x] = 1;
    }
    Drawn { state, columns }
}

// The columns with each place, from the last down to place 1, swapped with one that is drawn.
fn swap_places(n: usize, before: Drawn) -> Drawn
    requires { (0 < n) × (n ≤ 16) }
    ensures { PlacesSwapped n before.state before.columns result.state result.columns }
{
    let mut columns = before.columns;
    let mut state = before.state;
    for i in (1..n).rev() {
        state = next_state(state);
        let j = remainder(state, i + 1);
        columns.swap(i, j);
    }
    Drawn { state, columns }
}

// Whether there is a load of n factors and g generators.
fn check_room(n: usize, g: usize) -> Result<(), Refusal>
    ensures { Lowest (load_faults n g) (refusal_of result) × (refusal_of result ≡ 0 → Roomy n (n - g)) }
{
    check_size(n, g)?;
    if power(n - g) <= n {
        return Err(Refusal::ShortWord);
    }
    Ok(())
}

// The columns of the load, and the state that goes back.
fn drawn_load(n: usize, g: usize, seed: u32) -> Drawn
    requires { Roomy n (n - g) }
    ensures { Loaded n g seed result.columns result.state }
{
    swap_places(n, draw_columns(n, n - g, seed))
}

// The load of a seed as a design record, and the state for the next.
pub fn load(n: usize, g: usize, seed: u32) -> Result<Load, Refusal>
    ensures { LoadsDesign n g seed (load_answer seed result) }
{
    check_room(n, g)?;
    let Drawn { state, columns } = drawn_load(n, g, seed);
    let design = plan_layout::design(n, n - g, columns);
    Ok(Load { state, design })
}

// The state for the next, the plan of the load going into a lent list.
pub fn list_load(n: usize, g: usize, seed: u32, out: &mut [u8]) -> Result<u32, Refusal>
    ensures { LoadsInto n g seed out.old out.new (state_answer seed result) }
{
    check_room(n, g)?;
    let Drawn { state, columns } = drawn_load(n, g, seed);
    lend_plan(n, columns, 0, out)?;
    Ok(state)
}
