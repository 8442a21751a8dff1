// The definitions of documents 01 and 02, in specs/, and the types that their calls hand around.
#![tactic(auto)]

ghost use Rattle.std.specs.Prelude.{◌≡◌, ◌<◌};
ghost use Rattle.regular.specs.Answers.{number, signs_answer, form_answer, book_answer, read_answer};

// The most factors, basic factors and runs of a plan.
pub const FACTORS: usize = 16;

pub const BASICS: usize = 7;

pub const RUNS: usize = 128;

// A place for each basic factor, and one more.
pub const UNITS: usize = 8;

// How many numbers a column may be: those of seven bits, one for each basic factor.
pub const NUMBERS: usize = 128;

// A design record: the factor count, the basic count, sixteen columns, those past the factor count being zero, and the switch mask, which is
// exclusive-ored into each run.
#[repr(C)]
#[derive(Clone, Copy, PartialEq, Eq)]
pub struct Design {
    pub factors: u8,
    pub basics: u8,
    pub columns: [u8; FACTORS],
    pub mask: u16,
}

// Why a call is refused, in the order of the papers' numbers: the lowest that applies is the answer.
#[derive(Clone, Copy, Debug, PartialEq, Eq)]
pub enum Refusal {
    // The sizes and the wanted resolution.
    Factors,
    Generators,
    Resolution,
    // A plan: how many numbers it has, a number that is out of range, its rank, a word that is too short.
    Count,
    Range,
    Rank,
    ShortWord,
    // A lent list: too few places, and more entries than places.
    Places,
    Entries,
    // A book: cut short or too long, a record of another kind, a record that is not true.
    Length,
    Kind,
    Untrue,
}

impl Refusal {
    // Its number in the papers.
    pub fn number(self) -> u8
        ensures { (result ≡ number self) × (0 < result) }
    {
        match self {
            Refusal::Factors => 1,
            Refusal::Generators => 2,
            Refusal::Resolution => 3,
            Refusal::Count => 4,
            Refusal::Range => 5,
            Refusal::Rank => 6,
            Refusal::ShortWord => 7,
            Refusal::Places => 8,
            Refusal::Entries => 9,
            Refusal::Length => 10,
            Refusal::Kind => 11,
            Refusal::Untrue => 12,
        }
    }
}

// An accepted plan: the run that it starts from, and the standard columns of the plan with that run switched to 0.
#[derive(Clone, Copy)]
pub struct AcceptedPlan {
    pub run: u16,
    pub columns: [u8; FACTORS],
}

// A smallest form as a design record, and the mask of the witness to it.
#[derive(Clone, Copy)]
pub struct UnplacedForm {
    pub mask: u16,
    pub design: Design,
}

// .. and its first place in a lent list of records, from 1, 0 if absent.
#[derive(Clone, Copy)]
pub struct PlacedForm {
    pub mask: u16,
    pub place: usize,
    pub design: Design,
}

// What is told of a smallest form whose columns go into a lent list: the mask of the witness to it, and its first place in a list of plans, from 1, 0 if
// absent.
#[derive(Clone, Copy)]
pub struct FormPlace {
    pub mask: u16,
    pub place: usize,
}

// A load, and the state after its draws.
#[derive(Clone, Copy)]
pub struct Load {
    pub state: u32,
    pub design: Design,
}

// The N, G and R of a book, and how many of its entries the lent list holds.
#[derive(Clone, Copy)]
pub struct BookSize {
    pub factors: u8,
    pub generators: u8,
    pub resolution: u8,
    pub count: usize,
}

// What a comparison of two plans finds: the same, with the mask of the witness; or different, with the first length where the patterns differ, 0 if they
// agree.
#[derive(Clone, Copy)]
pub enum Verdict {
    Same(u16),
    Different(u8),
}

// Which of two lists of words has less aberration.
#[derive(Clone, Copy)]
pub enum Choice {
    First,
    Second,
}

// The answers that C is given hold a refusal's number, 0 if accepted, and values, 0 if refused.

// The signs of the words that a lent list holds, bit i for word i.
#[repr(C)]
#[derive(Clone, Copy)]
pub struct SignsAnswer {
    pub number: u8,
    pub signs: u16,
}

// What is told of a smallest form.
#[repr(C)]
#[derive(Clone, Copy)]
pub struct FormAnswer {
    pub number: u8,
    pub mask: u16,
    pub place: usize,
}

// How many entries the lent list holds: none if refused by 1, 2 or 3; those that there is room for if refused by 9.
#[repr(C)]
#[derive(Clone, Copy)]
pub struct CatalogueAnswer {
    pub number: u8,
    pub count: usize,
}

// How many bytes the lent list holds.
#[repr(C)]
#[derive(Clone, Copy)]
pub struct BookAnswer {
    pub number: u8,
    pub count: usize,
}

// The state after the draws of a load; the seed as it came if refused.
#[repr(C)]
#[derive(Clone, Copy)]
pub struct StateAnswer {
    pub number: u8,
    pub state: u32,
}

// What a book that was read holds.
#[repr(C)]
#[derive(Clone, Copy)]
pub struct ReadAnswer {
    pub number: u8,
    pub factors: u8,
    pub generators: u8,
    pub resolution: u8,
    pub count: usize,
}

impl From<Result<u16, Refusal>> for SignsAnswer {
    ghost from_gives = { λ r a. a ≡ signs_answer r };

    fn from(r: Result<u16, Refusal>) -> SignsAnswer {
        match r {
            Ok(signs) => SignsAnswer { number: 0, signs },
            Err(e) => SignsAnswer {
                number: e.number(),
                signs: 0,
            },
        }
    }
}

impl From<Result<FormPlace, Refusal>> for FormAnswer {
    ghost from_gives = { λ r a. a ≡ form_answer r };

    fn from(r: Result<FormPlace, Refusal>) -> FormAnswer {
        match r {
            Ok(form) => FormAnswer {
                number: 0,
                mask: form.mask,
                place: form.place,
            },
            Err(e) => FormAnswer {
                number: e.number(),
                mask: 0,
                place: 0,
            },
        }
    }
}

impl From<Result<usize, Refusal>> for BookAnswer {
    ghost from_gives = { λ r a. a ≡ book_answer r };

    fn from(r: Result<usize, Refusal>) -> BookAnswer {
        match r {
            Ok(count) => BookAnswer { number: 0, count },
            Err(e) => BookAnswer {
                number: e.number(),
                count: 0,
            },
        }
    }
}

impl From<Result<BookSize, Refusal>> for ReadAnswer {
    ghost from_gives = { λ r a. a ≡ read_answer r };

    fn from(r: Result<BookSize, Refusal>) -> ReadAnswer {
        match r {
            Ok(size) => ReadAnswer {
                number: 0,
                factors: size.factors,
                generators: size.generators,
                resolution: size.resolution,
                count: size.count,
            },
            Err(e) => ReadAnswer {
                number: e.number(),
                factors: 0,
                generators: 0,
                resolution: 0,
                count: 0,
            },
        }
    }
}
