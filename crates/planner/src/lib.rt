// The functions that the C planner and the tests call: plain numbers and lists, no requires, and nothing but a call of the function that has the
// same contract. include/planner.h says what each one means.
#![tactic(auto)]

ghost use Rattle.std.specs.Prelude.{◌≡◌, ◌-◌, ◌^◌};
ghost use Rattle.regular.specs.Columns.{ListedWith, RunsOfPlan};
ghost use Rattle.regular.specs.PlanBytes.{mask_in};
ghost use Rattle.regular.specs.Refusals.{either, Lowest};
ghost use Rattle.regular.specs.Given.{of_words, of_runs, of_columns, FillsFor};
ghost use Rattle.regular.specs.Forms.{StandardInto, WordsInto};
ghost use Rattle.regular.specs.Measures.{PatternInto, ResolutionInto, DistancesInto, ChoosesLess};
ghost use Rattle.regular.specs.Answers.{refusal_of, checked_of, compared_of};
ghost use Rattle.regular.specs.Comparisons.{Compares, ChecksWitness, Told, compared_number, checked_number};
ghost use Rattle.regular.specs.SmallestAnswers.{ReducesInto, ReducesEach};
ghost use Rattle.regular.specs.Loads.{LoadsInto};
ghost use Rattle.regular.specs.Catalogues.{ListsBytes};
ghost use Rattle.regular.specs.Book.{WritesPlans};
ghost use Rattle.regular.specs.ReadingAnswers.{ReadsPlans};

use admission::{Bytes, RunList, Words};
use regular::{
    BookAnswer, CatalogueAnswer, Choice, FormAnswer, ReadAnswer, Refusal, SignsAnswer, StateAnswer,
    Verdict,
};

// The number of a refusal, 0 if there is none.
fn number(answer: Result<(), Refusal>) -> u8
    ensures { result ≡ refusal_of answer }
{
    match answer {
        Ok(()) => 0,
        Err(e) => e.number(),
    }
}

// Words and signs to columns.
#[unsafe(no_mangle)]
pub extern "C" fn plan_columns_of_words(
    n: usize,
    g: usize,
    words: &[u16],
    signs: u16,
    plan: &mut [u8],
) -> u8
    ensures { StandardInto n g (of_words n g words.now signs) plan.old plan.new result }
{
    number(forms::columns_of(n, g, Words { list: words, signs }, plan))
}

// Run table to columns.
#[unsafe(no_mangle)]
pub extern "C" fn plan_columns_of_runs(n: usize, g: usize, runs: &[u16], plan: &mut [u8]) -> u8
    ensures { StandardInto n g (of_runs n g runs.now) plan.old plan.new result }
{
    number(forms::columns_of(n, g, RunList(runs), plan))
}

// Columns to words and signs.
#[unsafe(no_mangle)]
pub extern "C" fn plan_words_of_columns(
    n: usize,
    g: usize,
    plan: &[u8],
    words: &mut [u16],
) -> SignsAnswer
    ensures { WordsInto n g (of_columns n g plan.now) words.old words.new result }
{
    SignsAnswer::from(forms::words_of(n, g, Bytes(plan), words))
}

// Columns to run table.
#[unsafe(no_mangle)]
pub extern "C" fn plan_runs_of_columns(n: usize, g: usize, plan: &[u8], runs: &mut [u16]) -> u8
    ensures { FillsFor (of_columns n g plan.now) (2 ^ (n - g))
        (λ _. ListedWith n (n - g) plan.now (mask_in n plan.now)) runs.old runs.new result }
{
    number(forms::list_runs_of_columns(n, g, plan, runs))
}

// Words and signs to run table.
#[unsafe(no_mangle)]
pub extern "C" fn plan_runs_of_words(
    n: usize,
    g: usize,
    words: &[u16],
    signs: u16,
    runs: &mut [u16],
) -> u8
    ensures { FillsFor (of_words n g words.now signs) (2 ^ (n - g)) (RunsOfPlan n (n - g) ListedWith) runs.old
        runs.new result }
{
    number(forms::list_runs_of_words(n, g, Words { list: words, signs }, runs))
}

// The pattern, lengths 1 to n.
#[unsafe(no_mangle)]
pub extern "C" fn plan_pattern_of_columns(
    n: usize,
    g: usize,
    columns: &[u8],
    pattern: &mut [u16],
) -> u8
    ensures { PatternInto n (of_columns n g columns.now) pattern.old pattern.new result }
{
    number(measures::pattern_of(n, g, Bytes(columns), pattern))
}

// The distance counts, 0 to n.
#[unsafe(no_mangle)]
pub extern "C" fn plan_distances_of_columns(
    n: usize,
    g: usize,
    columns: &[u8],
    counts: &mut [u16],
) -> u8
    ensures { DistancesInto n (of_columns n g columns.now) counts.old counts.new result }
{
    number(measures::distances_of(n, g, Bytes(columns), counts))
}

// The pattern, lengths 1 to n.
#[unsafe(no_mangle)]
pub extern "C" fn plan_pattern_of_words(
    n: usize,
    g: usize,
    words: &[u16],
    signs: u16,
    pattern: &mut [u16],
) -> u8
    ensures { PatternInto n (of_words n g words.now signs) pattern.old pattern.new result }
{
    number(measures::pattern_of(n, g, Words { list: words, signs }, pattern))
}

// The distance counts, 0 to n.
#[unsafe(no_mangle)]
pub extern "C" fn plan_distances_of_words(
    n: usize,
    g: usize,
    words: &[u16],
    signs: u16,
    counts: &mut [u16],
) -> u8
    ensures { DistancesInto n (of_words n g words.now signs) counts.old counts.new result }
{
    number(measures::distances_of(n, g, Words { list: words, signs }, counts))
}

// The pattern, lengths 1 to n.
#[unsafe(no_mangle)]
pub extern "C" fn plan_pattern_of_runs(n: usize, g: usize, runs: &[u16], pattern: &mut [u16]) -> u8
    ensures { PatternInto n (of_runs n g runs.now) pattern.old pattern.new result }
{
    number(measures::pattern_of(n, g, RunList(runs), pattern))
}

// The distance counts, 0 to n.
#[unsafe(no_mangle)]
pub extern "C" fn plan_distances_of_runs(n: usize, g: usize, runs: &[u16], counts: &mut [u16]) -> u8
    ensures { DistancesInto n (of_runs n g runs.now) counts.old counts.new result }
{
    number(measures::distances_of(n, g, RunList(runs), counts))
}

// The resolution, in one place.
#[unsafe(no_mangle)]
pub extern "C" fn plan_resolution_of_columns(
    n: usize,
    g: usize,
    columns: &[u8],
    resolution: &mut [u8],
) -> u8
    ensures { ResolutionInto n (of_columns n g columns.now) resolution.old resolution.new result }
{
    number(measures::list_resolution_of(n, g, Bytes(columns), resolution))
}

// The resolution, in one place.
#[unsafe(no_mangle)]
pub extern "C" fn plan_resolution_of_words(
    n: usize,
    g: usize,
    words: &[u16],
    signs: u16,
    resolution: &mut [u8],
) -> u8
    ensures { ResolutionInto n (of_words n g words.now signs) resolution.old resolution.new result }
{
    number(measures::list_resolution_of(n, g, Words { list: words, signs }, resolution))
}

// The resolution, in one place.
#[unsafe(no_mangle)]
pub extern "C" fn plan_resolution_of_runs(
    n: usize,
    g: usize,
    runs: &[u16],
    resolution: &mut [u8],
) -> u8
    ensures { ResolutionInto n (of_runs n g runs.now) resolution.old resolution.new result }
{
    number(measures::list_resolution_of(n, g, RunList(runs), resolution))
}

// Which of two lists of words, taken without signs, has less aberration: 1 the first, 2 the second, 0 if refused.
#[unsafe(no_mangle)]
pub extern "C" fn plan_less_aberration(n: usize, g: usize, first: &[u16], second: &[u16]) -> u8
    ensures { ChoosesLess n (n - g) (of_words n g first.now 0) (of_words n g second.now 0) result }
{
    match aberration::choice(n, g, first, second) {
        Ok(Choice::First) => 1,
        Ok(Choice::Second) => 2,
        Err(_) => 0,
    }
}

// The number of its refusal.
#[unsafe(no_mangle)]
pub extern "C" fn plan_aberration_refusal(n: usize, g: usize, first: &[u16], second: &[u16]) -> u8
    ensures { Lowest (either (of_words n g first.now 0).faults (of_words n g second.now 0).faults) result }
{
    number(aberration::aberration_refusal(n, g, first, second))
}

// The answer of a check as a number.
fn checked_number(c: Result<bool, Refusal>) -> u32
    ensures { result ≡ checked_number (checked_of c) }
{
    match c {
        Ok(true) => 65536,
        Ok(false) => 131072,
        Err(e) => u32::from(e.number()),
    }
}

// Whether the names and the mask are a witness between two run tables.
#[unsafe(no_mangle)]
pub extern "C" fn plan_check_witness(
    n: usize,
    g: usize,
    first: &[u16],
    second: &[u16],
    names: &[u8],
    mask: u16,
) -> u32
    ensures { Told (ChecksWitness n (of_runs n g first.now) (of_runs n g second.now) names.now mask) checked_number result }
{
    checked_number(witness_check::check_witness(n, g, first, second, names, mask))
}

// The answer of a comparison as a number.
fn compared_number(c: Result<Verdict, Refusal>) -> u32
    ensures { result ≡ compared_number (compared_of c) }
{
    match c {
        Ok(Verdict::Same(mask)) => 65536 + u32::from(mask),
        Ok(Verdict::Different(l)) => 131072 + u32::from(l),
        Err(e) => u32::from(e.number()),
    }
}

// The comparison of two lists of columns.
#[unsafe(no_mangle)]
pub extern "C" fn plan_compare_columns(
    n: usize,
    g: usize,
    first: &[u8],
    second: &[u8],
    witness: &mut [u8],
) -> u32
    ensures { Told (Compares n (of_columns n g first.now) (of_columns n g second.now) witness.old witness.new)
        compared_number result }
{
    compared_number(comparison::compare(n, g, Bytes(first), Bytes(second), witness))
}

// The comparison of two run tables.
#[unsafe(no_mangle)]
pub extern "C" fn plan_compare_runs(
    n: usize,
    g: usize,
    first: &[u16],
    second: &[u16],
    witness: &mut [u8],
) -> u32
    ensures { Told (Compares n (of_runs n g first.now) (of_runs n g second.now) witness.old witness.new)
        compared_number result }
{
    compared_number(comparison::compare(n, g, RunList(first), RunList(second), witness))
}

// The smallest form of the plan of a list of columns, the names of a witness to it, and its first place in a list of plans.
#[unsafe(no_mangle)]
pub extern "C" fn plan_smallest_of_columns(
    n: usize,
    g: usize,
    columns: &[u8],
    list: &[u8],
    smallest: &mut [u8],
    witness: &mut [u8],
) -> FormAnswer
    ensures { ReducesInto n g (of_columns n g columns.now) list.now smallest.old smallest.new
        witness.old witness.new result }
{
    FormAnswer::from(smallest_calls::smallest_into(n, g, Bytes(columns), list, smallest, witness))
}

// The smallest form of the plan of a run table, the names and the mask of a witness to it, and its first place in a list of plans.
#[unsafe(no_mangle)]
pub extern "C" fn plan_smallest_of_runs(
    n: usize,
    g: usize,
    runs: &[u16],
    list: &[u8],
    smallest: &mut [u8],
    witness: &mut [u8],
) -> FormAnswer
    ensures { ReducesInto n g (of_runs n g runs.now) list.now smallest.old smallest.new witness.old
        witness.new result }
{
    FormAnswer::from(smallest_calls::smallest_into(n, g, RunList(runs), list, smallest, witness))
}

// The smallest forms of several plans one after another, and a witness to each.
#[unsafe(no_mangle)]
pub extern "C" fn plan_smallest_of_plans(
    n: usize,
    g: usize,
    plans: &[u8],
    forms: &mut [u8],
    witnesses: &mut [u8],
) -> u8
    ensures { ReducesEach n g plans.now forms.old forms.new witnesses.old witnesses.new result }
{
    number(smallest_calls::smallest_of_plans(n, g, plans, forms, witnesses))
}

// A load of a seed, and the state for the next.
#[unsafe(no_mangle)]
pub extern "C" fn plan_load(n: usize, g: usize, seed: u32, plan: &mut [u8]) -> StateAnswer
    ensures { LoadsInto n g seed plan.old plan.new result }
{
    match loads::list_load(n, g, seed, plan) {
        Ok(state) => StateAnswer { number: 0, state },
        Err(e) => StateAnswer {
            number: e.number(),
            state: seed,
        },
    }
}

// The catalogue, entry after entry as plans.
#[unsafe(no_mangle)]
pub extern "C" fn plan_catalogue(
    n: usize,
    g: usize,
    r: usize,
    columns: &mut [u8],
) -> CatalogueAnswer
    ensures { ListsBytes n g r columns.old columns.new result.number result.count }
{
    catalogue::list_catalogue(n, g, r, columns)
}

// The book of several plans.
#[unsafe(no_mangle)]
pub extern "C" fn plan_write_book(
    n: usize,
    g: usize,
    r: usize,
    plans: &[u8],
    book: &mut [u8],
) -> BookAnswer
    ensures { WritesPlans n g r plans.now book.old book.new result.number result.count }
{
    BookAnswer::from(book::write_book(n, g, r, plans, book))
}

// The entries of a book, one after another as plans.
#[unsafe(no_mangle)]
pub extern "C" fn plan_read_book(book: &[u8], columns: &mut [u8]) -> ReadAnswer
    ensures { ReadsPlans book.now columns.old columns.new result }
{
    ReadAnswer::from(reading::list_book(book, columns))
}
