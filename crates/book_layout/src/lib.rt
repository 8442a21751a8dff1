// A book's layout: the kinds of its records, and how long they are. An entry starts where the book of the entries before it ends.
#![tactic(auto)]

ghost use Rattle.std.specs.Prelude.{◌≡◌, ◌≤◌};
ghost use Rattle.regular.specs.Book.{pattern_length, book_length, most_plans};

// The kinds of records: 0x01 the header, 0x20 + n the columns of n factors, 0x40 + n their pattern.
pub const HEADER_KIND: u8 = 1;

pub const COLUMNS_KIND: usize = 32;

pub const PATTERN_KIND: usize = 64;

// How long the header is.
pub const HEADER_LENGTH: usize = 6;

// How many values a byte has.
pub const BYTE_VALUES: u16 = 256;

// How long the pattern of an entry is.
pub fn pattern_length(n: usize) -> usize
    requires { n ≤ 16 }
    ensures { result ≡ pattern_length n }
{
    if n < 2 {
        return 1;
    }
    1 + 2 * (n - 2)
}

// How long a book of so many entries is.
pub fn book_length(n: usize, count: usize) -> usize
    requires { (n ≤ 16) × (count ≤ most_plans) }
    ensures { result ≡ book_length n count }
{
    HEADER_LENGTH + count * (1 + n + pattern_length(n))
}
