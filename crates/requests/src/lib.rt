// Request lines: the place in one that is not at its end yet, and what a line that ends there asks for.
#![tactic(auto)]

ghost use Rattle.std.specs.Prelude.{◌≡◌};
ghost use Rattle.requests.specs.Requests.{kind_of};
ghost use Rattle.requests.specs.LinePlaces.{at_start, request_at};
ghost use Rattle.requests.specs.LinePlaces.{onward as onward_from};

use digits::FOUR_DIGIT_VALUES;

// The digits of a line with no field, with one, and with two.
const NO_FIELD: usize = 2;

const ONE_FIELD: usize = NO_FIELD + 4;

const TWO_FIELDS: usize = ONE_FIELD + 4;

// What nine digits make is below this number.
const NINE_DIGIT_VALUES: u64 = FOUR_DIGIT_VALUES * FOUR_DIGIT_VALUES * 16;

// How far an unfinished line has come: its digits are counted, and the number that they make is kept. A line that can
// be no request any more has a digit too many: no variant of its own, since a caller may hand in any place.
#[derive(Clone, Copy)]
pub struct Place {
    pub digits: usize,
    pub number: u64,
}

// A line that can be no request any more.
const SPOILT: Place = Place {
    digits: TWO_FIELDS + 1,
    number: 0,
};

// A line's request.
#[derive(Clone, Copy)]
pub enum Request {
    Start(u32),
    Alloc(u32),
    Free(u32),
    Realloc(u32, u32),
    Report,
    Malformed,
}

impl Request {
    // The number of its kind, which its reply repeats.
    pub fn kind(self) -> u32
        ensures { result ≡ kind_of self }
    {
        match self {
            Request::Start(_) => 1,
            Request::Alloc(_) => 2,
            Request::Free(_) => 3,
            Request::Realloc(_, _) => 4,
            Request::Report => 5,
            Request::Malformed => 0,
        }
    }
}

// The place at the start of a line.
pub fn at_start() -> Place
    ensures { result ≡ at_start }
{
    Place {
        digits: 0,
        number: 0,
    }
}

// The place after one more byte of the line. Where the digits are as many as a request can have, or the line is spoilt,
// any byte spoils it: none is looked at.
#[tactic(auto, unfolding(crate::specs::LinePlaces::onward), using(std::proofs::lemmas::Bool::Decides::nat_tests))]
pub fn onward(place: Place, b: u8) -> Place
    ensures { result ≡ onward_from place b }
{
    if TWO_FIELDS <= place.digits {
        return SPOILT;
    }
    match digits::worth(b) {
        worth @ 0..=15 => Place {
            digits: place.digits + 1,
            number: (place.number % NINE_DIGIT_VALUES) * 16 + worth,
        },
        _ => SPOILT,
    }
}

// The request of a line that ends here: its kind stands before its fields, of which it has none, one or two.
#[tactic(auto, unfolding(crate::specs::LinePlaces::request_at), using(std::proofs::lemmas::Bool::Decides::nat_tests))]
pub fn request_at(place: Place) -> Request
    ensures { result ≡ request_at place }
{
    let rest = place.number / FOUR_DIGIT_VALUES;
    let last = (place.number % FOUR_DIGIT_VALUES) as u32;
    let first = (rest % FOUR_DIGIT_VALUES) as u32;
    let kind = match place.digits {
        NO_FIELD => place.number,
        ONE_FIELD => rest,
        _ => rest / FOUR_DIGIT_VALUES,
    };
    match (place.digits, kind) {
        (ONE_FIELD, 1) => Request::Start(last),
        (ONE_FIELD, 2) => Request::Alloc(last),
        (ONE_FIELD, 3) => Request::Free(last),
        (TWO_FIELDS, 4) => Request::Realloc(first, last),
        (NO_FIELD, 5) => Request::Report,
        _ => Request::Malformed,
    }
}
