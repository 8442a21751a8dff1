// The reader of books: every byte is judged first, in order, then the lent list is filled.
#![tactic(auto)]

ghost use Rattle.std.specs.Prelude.{◌≡◌, ℕ, ◌+◌, ◌*◌, ◌-◌, ◌≤◌, ◌<◌, length, Ok};
ghost use Rattle.gf2.specs.Answers.{Tells};
ghost use Rattle.regular.specs.Sizes.{Sized};
ghost use Rattle.regular.specs.Smallest.{Before, IsEntry};
ghost use Rattle.regular.specs.PlanBytes.{plan_start};
ghost use Rattle.regular.specs.Book.{header_length, most_plans};
ghost use Rattle.regular.specs.Reading.{RecordAt, HeaderChecks, columns_in, EntryRises, ColumnsChecks, PatternChecks, EntryChecks, EntriesChecks, Reading};
ghost use Rattle.regular.specs.ReadingAnswers.{ReadsPlans, places_of, ReadsDesigns};
ghost use Rattle.regular.specs.Answers.{refusal_of, read_answer};
ghost use Rattle.entry_test.specs.Testing.{KeptIn};
ghost use Rattle.reading.specs.Answers.{EntryThere, earlier_columns, NumberAt, CountsAt, HeaderRead, Answered, Judged, DesignIn};

use admission::{Bare, Form, array_of, check_bounds};
use book_layout::{
    BYTE_VALUES, COLUMNS_KIND, HEADER_KIND, HEADER_LENGTH, PATTERN_KIND, book_length,
    pattern_length,
};
use column_tables::SearchTables;
use entry_test::is_entry_after;
use plan_layout::{plan_start, put_plan};
use regular::{BookSize, Design, FACTORS, Refusal};

// Refused if no whole record of this kind and length stands at a place.
fn check_record(kind: u8, len: usize, book: &[u8], at: usize) -> Result<(), Refusal>
    ensures { RecordAt kind len book.now at (refusal_of result) }
{
    if book.len() <= at {
        return Err(Refusal::Length);
    }
    if book[at] != kind {
        return Err(Refusal::Kind);
    }
    if book.len() - at < len {
        return Err(Refusal::Length);
    }
    Ok(())
}

// The columns of entry i.
fn columns_in(n: usize, book: &[u8], i: usize) -> &[u8]
    requires { EntryThere n book.now i }
    ensures { result.now ≡ columns_in n book.now i }
{
    let start = book_length(n, i) + 1;
    let end = start + n;
    &book[start..end]
}

// The columns of the entry before entry i; none if it is the first.
fn earlier_columns(n: usize, book: &[u8], i: usize) -> &[u8]
    requires { EntryThere n book.now i }
    ensures { result.now ≡ earlier_columns n book.now i }
{
    if i == 0 {
        return &book[..0];
    }
    columns_in(n, book, i - 1)
}

// Whether n columns come before others in dictionary order.
fn before(n: usize, c: &[u8], d: &[u8]) -> bool
    requires { (n ≤ length c.now) × (n ≤ length d.now) }
    ensures { Tells result (Before n c.now d.now) (Before n c.now d.now → ⊥) }
{
    c[..n] < d[..n]
}

// Whether entry i comes after the entry before it, where there is one.
fn entry_rises(n: usize, book: &[u8], i: usize) -> bool
    requires { EntryThere n book.now i }
    ensures { Tells result (EntryRises n book.now i) (EntryRises n book.now i → ⊥) }
{
    if i == 0 {
        return true;
    }
    before(n, columns_in(n, book, i - 1), columns_in(n, book, i))
}

// Refused if entry i's columns are not there or not true. The tables are those of the entry before; if the columns are true, they become theirs.
fn check_columns(
    n: usize,
    g: usize,
    r: usize,
    book: &[u8],
    i: usize,
    tables: &mut SearchTables,
) -> Result<(), Refusal>
    requires { Sized n g r × (i ≤ most_plans) × KeptIn (earlier_columns n book.now i) tables.old }
    ensures { ColumnsChecks n g r book.now i (refusal_of result) × (refusal_of result ≡ 0 → KeptIn (columns_in n book.now i) tables.new) }
{
    check_record((COLUMNS_KIND + n) as u8, 1 + n, book, book_length(n, i))?;
    let earlier = earlier_columns(n, book, i);
    let columns = columns_in(n, book, i);
    if !is_entry_after(n, g, r, earlier, columns, tables) {
        return Err(Refusal::Untrue);
    }
    if !entry_rises(n, book, i) {
        return Err(Refusal::Untrue);
    }
    Ok(())
}

// Whether a number of 16 bits stands at a place, low byte first.
fn has_number(x: u16, book: &[u8], at: usize) -> bool
    requires { at + 2 ≤ length book.now }
    ensures { Tells result (NumberAt x book.now at) (NumberAt x book.now at → ⊥) }
{
    book[at..at + 2] == x.to_le_bytes()[..]
}

// Whether the counts for lengths 3 to n stand at a place.
fn has_counts(n: usize, counts: [u16; FACTORS], book: &[u8], at: usize) -> bool
    requires { (n ≤ 16) × (at + 2 * (n - 2) ≤ length book.now) }
    ensures { Tells result (CountsAt (n - 2) counts book.now at) (CountsAt (n - 2) counts book.now at → ⊥) }
{
    let mut to = at;
    for i in 2..n {
        if !has_number(counts[i], book, to) {
            return false;
        }
        to += 2;
    }
    true
}

// Refused if entry i's pattern is not there or not true.
fn check_pattern(n: usize, g: usize, book: &[u8], i: usize) -> Result<(), Refusal>
    requires { ((r : ℕ) × IsEntry n g r (columns_in n book.now i)) × EntryThere n book.now i }
    ensures { PatternChecks n g book.now i (refusal_of result) }
{
    let at = book_length(n, i) + 1 + n;
    check_record((PATTERN_KIND + n) as u8, pattern_length(n), book, at)?;
    let plan = Bare(columns_in(n, book, i)).admit(n, g).unwrap();
    let counts = measures::pattern(n, g, plan.columns);
    if !has_counts(n, counts, book, at + 1) {
        return Err(Refusal::Untrue);
    }
    Ok(())
}

// Refused if entry i is not there or not true. The tables are those of the entry before; if it is true, they become its own.
fn check_entry(
    n: usize,
    g: usize,
    r: usize,
    book: &[u8],
    i: usize,
    tables: &mut SearchTables,
) -> Result<(), Refusal>
    requires { Sized n g r × (i ≤ most_plans) × KeptIn (earlier_columns n book.now i) tables.old }
    ensures { EntryChecks n g r book.now i (refusal_of result) × (refusal_of result ≡ 0 → KeptIn (columns_in n book.now i) tables.new) }
{
    check_columns(n, g, r, book, i, tables)?;
    check_pattern(n, g, book, i)
}

// Refused if one of the entries is, of which there are so many, or if bytes are left over.
fn check_entries(n: usize, g: usize, r: usize, count: usize, book: &[u8]) -> Result<(), Refusal>
    requires { Sized n g r × (count ≤ most_plans) }
    ensures { EntriesChecks n g r book.now 0 count (refusal_of result) }
{
    let mut tables = SearchTables::none();
    for i in 0..count {
        check_entry(n, g, r, book, i, &mut tables)?;
    }
    if book_length(n, count) < book.len() {
        return Err(Refusal::Length);
    }
    Ok(())
}

// What the header's bytes say.
fn header_of(book: &[u8]) -> BookSize
    requires { header_length ≤ length book.now }
    ensures { HeaderRead book.now (read_answer (Ok result)) }
{
    let low = usize::from(book[4]);
    let high = usize::from(book[5]);
    BookSize {
        factors: book[1],
        generators: book[2],
        resolution: book[3],
        count: low + usize::from(BYTE_VALUES) * high,
    }
}

// What the header says, or its refusal.
fn open(book: &[u8]) -> Result<BookSize, Refusal>
    ensures { Answered (HeaderChecks book.now) book.now (read_answer result) }
{
    check_record(HEADER_KIND, HEADER_LENGTH, book, 0)?;
    let header = header_of(book);
    let n = usize::from(header.factors);
    let g = usize::from(header.generators);
    let r = usize::from(header.resolution);
    check_bounds(n, g, r)?;
    Ok(header)
}

// The answer for a book whose header says so, where there is room for the entries or not.
fn judged(book: &[u8], header: BookSize, room: bool) -> Result<BookSize, Refusal>
    requires { Answered (HeaderChecks book.now) book.now (read_answer (Ok header)) }
    ensures { Judged book.now (read_answer (Ok header)) room (read_answer result) }
{
    if !room {
        return Err(Refusal::Places);
    }
    let n = usize::from(header.factors);
    let g = usize::from(header.generators);
    let r = usize::from(header.resolution);
    check_entries(n, g, r, header.count, book)?;
    Ok(header)
}

// The answer for a list of so many bytes.
fn reading_plans(book: &[u8], places: usize) -> Result<BookSize, Refusal>
    ensures { Answered (Reading plan_start places book.now) book.now (read_answer result) }
{
    let header = open(book)?;
    let room = plan_start(usize::from(header.factors), header.count) <= places;
    judged(book, header, room)
}

// The answer for a list of so many design records.
fn reading_designs(book: &[u8], places: usize) -> Result<BookSize, Refusal>
    ensures { Answered (Reading places_of places book.now) book.now (read_answer result) }
{
    let header = open(book)?;
    let room = header.count <= places;
    judged(book, header, room)
}

// The record of entry i.
fn design_in(header: BookSize, book: &[u8], i: usize) -> Design
    requires { ((places : ℕ) × Answered (Reading places_of places book.now) book.now (read_answer (Ok header))) × (i < header.count) }
    ensures { DesignIn (read_answer (Ok header)) book.now i result }
{
    let n = usize::from(header.factors);
    let g = usize::from(header.generators);
    plan_layout::design(n, n - g, array_of(columns_in(n, book, i)))
}

// Reads a book into a lent list of bytes, entry i as plan i.
pub fn list_book(book: &[u8], out: &mut [u8]) -> Result<BookSize, Refusal>
    ensures { ReadsPlans book.now out.old out.new (read_answer result) }
{
    let header = reading_plans(book, out.len())?;
    let n = usize::from(header.factors);
    for i in 0..header.count {
        let columns = array_of(columns_in(n, book, i));
        put_plan(n, columns, 0, i, out);
    }
    Ok(header)
}

// Reads a book into a lent list of design records.
pub fn read_book(book: &[u8], list: &mut [Design]) -> Result<BookSize, Refusal>
    ensures { ReadsDesigns book.now list.old list.new (read_answer result) }
{
    let header = reading_designs(book, list.len())?;
    for i in 0..header.count {
        list[i] = design_in(header, book, i);
    }
    Ok(header)
}
