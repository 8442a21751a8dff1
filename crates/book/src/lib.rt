// The book of a list of plans, into lent bytes: all is judged first, then the header and entry after entry are written.
#![tactic(auto)]

ghost use Rattle.std.specs.Prelude.{◌≡◌, ℕ, ◌+◌, ◌*◌, ◌-◌, ◌≤◌, length};
ghost use Rattle.regular.specs.Pattern.{of_length};
ghost use Rattle.regular.specs.PlanBytes.{plan_count};
ghost use Rattle.regular.specs.Refusals.{Lowest, design_faults};
ghost use Rattle.plan_lists.specs.Accepted.{AcceptedPlans};
ghost use Rattle.regular.specs.Book.{low_first, each, header, header_length, entry_records, entry_length, entry_of_design};
ghost use Rattle.regular.specs.Book.{book_length, most_plans, CountFault, WritesPlans, WritesDesigns};
ghost use Rattle.admission.specs.Admission.{Ready};
ghost use Rattle.book.specs.Over.{over};
ghost use Rattle.regular.specs.Answers.{refusal_of};
ghost use Rattle.std.specs.Result.{result_unwrap_or};
ghost use Rattle.book.specs.Writing.{standard_entry, PutEntry, BookRefusal, Opened, Written, plan_entry};

use admission::{Bytes, Form, both};
use book_layout::{COLUMNS_KIND, HEADER_KIND, HEADER_LENGTH, PATTERN_KIND, book_length};
use plan_layout::{columns_at, plan_at, plan_count};
use regular::{Design, FACTORS, Refusal};

// The most plans that the header can count.
const MOST_PLANS: usize = 65535;

// A number of 16 bits, low byte first, at two places.
fn put_number(x: u16, at: usize, out: &mut [u8])
    requires { at + 2 ≤ length out.old }
    ensures { out.new ≡ over at (low_first x) out.old }
{
    out[at..at + 2].copy_from_slice(&x.to_le_bytes());
}

// The header.
fn put_header(n: usize, g: usize, r: usize, count: usize, out: &mut [u8])
    requires { (n ≤ 16) × (g ≤ 16) × (r ≤ 16) × (count ≤ most_plans) × (header_length ≤ length out.old) }
    ensures { out.new ≡ over 0 (header n g r count) out.old }
{
    out[0] = HEADER_KIND;
    out[1] = n as u8;
    out[2] = g as u8;
    out[3] = r as u8;
    put_number(count as u16, 4, out);
}

// The counts for lengths 3 to n; and the place after them.
fn put_counts(n: usize, counts: [u16; FACTORS], at: usize, out: &mut [u8]) -> usize
    requires { (n ≤ 16) × (at + 2 * (n - 2) ≤ length out.old) }
    ensures { (out.new ≡ over at (each (λ i. low_first (of_length counts (3 + i))) (n - 2)) out.old)
        × (result ≡ at + 2 * (n - 2)) }
{
    let mut to = at;
    for i in 2..n {
        put_number(counts[i], to, out);
        to += 2;
    }
    to
}

// An entry, its columns and its pattern; and the place after it.
fn put_entry(
    n: usize,
    columns: [u8; FACTORS],
    counts: [u16; FACTORS],
    at: usize,
    out: &mut [u8],
) -> usize
    requires { (n ≤ 16) × (at + entry_length n ≤ length out.old) }
    ensures { (out.new ≡ over at (entry_records n columns counts) out.old) × (result ≡ at + entry_length n) }
{
    out[at] = (COLUMNS_KIND + n) as u8;
    lent::put_first(n, columns, at + 1, out);
    let next = at + 1 + n;
    out[next] = (PATTERN_KIND + n) as u8;
    put_counts(n, counts, next + 1, out)
}

// The entry of a plan, by its columns and its standard columns, whose pattern is the plan's.
fn put_plan(
    n: usize,
    g: usize,
    columns: [u8; FACTORS],
    standard: [u8; FACTORS],
    at: usize,
    out: &mut [u8],
) -> usize
    requires { Ready n g standard × (at + entry_length n ≤ length out.old) }
    ensures { PutEntry n (standard_entry n g columns standard) at out.old out.new result }
{
    let counts = measures::pattern(n, g, standard);
    put_entry(n, columns, counts, at, out)
}

// Refused if there are more plans than the header can count.
fn check_count(count: usize) -> Result<(), Refusal>
    ensures { Lowest (CountFault count) (refusal_of result) }
{
    if MOST_PLANS < count {
        return Err(Refusal::Count);
    }
    Ok(())
}

// The call's refusal: that of the plans or of their count, then that of too few lent bytes.
fn check_book(
    n: usize,
    count: usize,
    plans: Result<(), Refusal>,
    places: usize,
) -> Result<(), Refusal>
    requires { refusal_of plans ≡ 0 → n ≤ 16 }
    ensures { BookRefusal n count (refusal_of plans) places (refusal_of result) }
{
    both(plans, check_count(count))?;
    lent::lending(Ok(()), book_length(n, count), places)
}

// The header, if nothing is refused; and the place after it.
fn begin(
    n: usize,
    g: usize,
    r: usize,
    count: usize,
    plans: Result<(), Refusal>,
    out: &mut [u8],
) -> Result<usize, Refusal>
    requires { refusal_of plans ≡ 0 → ((n ≤ 16) × (g ≤ 16) × (r ≤ 16)) }
    ensures { Opened n g r count (refusal_of plans) out.old out.new (refusal_of result) (result_unwrap_or result 0) }
{
    check_book(n, count, plans, out.len())?;
    put_header(n, g, r, count, out);
    Ok(HEADER_LENGTH)
}

// The entries of all plans, after the header; and the place after them.
fn put_plans(n: usize, g: usize, plans: &[u8], out: &mut [u8]) -> usize
    requires { ((r : ℕ) × AcceptedPlans n g r plans.now) × (book_length n (plan_count n (length plans.now)) ≤ length out.old) }
    ensures { Written n (plan_entry n g plans.now) (plan_count n (length plans.now)) out.old out.new result }
{
    let mut at = HEADER_LENGTH;
    for i in 0..plan_count(n, plans.len()) {
        let plan = Bytes(plan_at(n, plans, i)).admit(n, g).unwrap();
        at = put_plan(n, g, columns_at(n, plans, i), plan.columns, at, out);
    }
    at
}

// The book of plans given as bytes; says how many bytes it takes.
pub fn write_book(
    n: usize,
    g: usize,
    r: usize,
    plans: &[u8],
    out: &mut [u8],
) -> Result<usize, Refusal>
    ensures { WritesPlans n g r plans.now out.old out.new (refusal_of result) (result_unwrap_or result 0) }
{
    let judged = plan_lists::check_plans(n, g, r, true, plans);
    let count = plan_count(n, plans.len());
    begin(n, g, r, count, judged, out)?;
    Ok(put_plans(n, g, plans, out))
}

// The entry of a design record; and the place after it.
fn put_design(n: usize, g: usize, design: Design, at: usize, out: &mut [u8]) -> usize
    requires { Lowest (design_faults n g design) 0 × (at + entry_length n ≤ length out.old) }
    ensures { PutEntry n (entry_of_design n g design) at out.old out.new result }
{
    let plan = design.admit(n, g).unwrap();
    put_plan(n, g, design.columns, plan.columns, at, out)
}

// The book of a list of design records.
pub fn write_book_of_designs(
    n: usize,
    g: usize,
    r: usize,
    list: &[Design],
    out: &mut [u8],
) -> Result<usize, Refusal>
    ensures { WritesDesigns n g r list.now out.old out.new (refusal_of result) (result_unwrap_or result 0) }
{
    let judged = plan_lists::check_records(n, g, r, true, list);
    let mut at = begin(n, g, r, list.len(), judged, out)?;
    for d in list {
        at = put_design(n, g, *d, at, out);
    }
    Ok(at)
}
