// The catalogue of N, G and R into a lent list: entry after entry, by the step that finds the next.
#![tactic(auto)]

ghost use Rattle.std.specs.Prelude.{◌≡◌};
ghost use Rattle.regular.specs.Catalogues.{ListsBytes, ListsDesigns};
ghost use Rattle.regular.specs.Answers.{refusal_of};
ghost use Rattle.catalogue.specs.Turns.{WalkAt, Turned, turn_found, turn_columns};

use admission::check_bounds;
use entries::{WalkState, next_entry, walk_start};
use plan_layout::{design, plan_count, put_plan};
use regular::{CatalogueAnswer, Design, FACTORS, Refusal};

// The entry after c, the i-th, or the first if i is 0, where there is room for one more; none where no entry is left. The state is that of all columns of
// c but the last, and becomes that of the entry.
fn advance(
    n: usize,
    g: usize,
    r: usize,
    i: usize,
    room: bool,
    c: [u8; FACTORS],
    state: &mut WalkState,
) -> Result<Option<[u8; FACTORS]>, Refusal>
    requires { WalkAt n g r i c state.old }
    ensures { Turned n g r i room c (turn_found result) (refusal_of result) (turn_columns result) state.new }
{
    check_bounds(n, g, r)?;
    let Some(entry) = next_entry(n, n - g, r, 0 < i, c, state) else {
        return Ok(None);
    };
    if !room {
        return Err(Refusal::Entries);
    }
    Ok(Some(entry))
}

// The answer where the list ends after so many entries.
fn ended(number: u8, count: usize) -> CatalogueAnswer
    ensures { (result.number ≡ number) × (result.count ≡ count) }
{
    CatalogueAnswer { number, count }
}

// The catalogue into a lent list of bytes, entry i as plan i.
pub fn list_catalogue(n: usize, g: usize, r: usize, out: &mut [u8]) -> CatalogueAnswer
    ensures { ListsBytes n g r out.old out.new result.number result.count }
{
    let places = plan_count(n, out.len());
    let mut c = [0u8; FACTORS];
    let mut state = walk_start();
    let mut count: usize = 0;
    loop {
        match advance(n, g, r, count, count < places, c, &mut state) {
            Ok(Some(next)) => {
                put_plan(n, next, 0, count, out);
                c = next;
                count += 1;
            }
            Ok(None) => return ended(0, count),
            Err(refusal) => return ended(refusal.number(), count),
        }
    }
}

// The catalogue into a lent list of design records.
pub fn catalogue(n: usize, g: usize, r: usize, list: &mut [Design]) -> CatalogueAnswer
    ensures { ListsDesigns n g r list.old list.new result.number result.count }
{
    let places = list.len();
    let mut c = [0u8; FACTORS];
    let mut state = walk_start();
    let mut i: usize = 0;
    loop {
        match advance(n, g, r, i, i < places, c, &mut state) {
            Ok(Some(next)) => {
                list[i] = design(n, n - g, next);
                c = next;
                i += 1;
            }
            Ok(None) => return ended(0, i),
            Err(refusal) => return ended(refusal.number(), i),
        }
    }
}
