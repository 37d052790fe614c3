// What the calls answer, and the same in the documents' numbers.
#![tactic(auto)]

ghost use Rattle.std.specs.Prelude.{◌≡◌, ℕ, List};
ghost use Rattle.answers.specs.Readings.{read, no_fields, grant_fields, sizes_fields, counts_fields, one_field};
ghost use Rattle.answers.specs.Padded.{four, padded, padded_refusal};
ghost use Rattle.answers.specs.InRecords.{served_in};
ghost use Rattle.answers.specs.FieldLaws.{FieldLaws, no_field_laws, grant_laws, sizes_laws, counts_laws, one_field_laws};

use layout::Reason;
use rules::Served;

// A block, and the words granted with it.
#[derive(Clone, Copy)]
pub struct Grant {
    pub block: u32,
    pub granted: u32,
}

// The words of a block that were asked for, and those granted.
#[derive(Clone, Copy)]
pub struct Sizes {
    pub asked: u32,
    pub granted: u32,
}

// What a report counts.
#[derive(Clone, Copy)]
pub struct Counts {
    pub free_words: u32,
    pub largest: u32,
    pub live_blocks: u32,
    pub free_chunks: u32,
}

// What start, free and the reading of a picture answer.
pub type Finish = Result<(), Reason>;

// What alloc, alloc_best, resize, relocate and realloc answer.
pub type Granted = Result<Grant, Reason>;

// What size answers.
pub type Sized = Result<Sizes, Reason>;

// What report answers.
pub type Reported = Result<Counts, Reason>;

// What the writing of a picture answers: how many bytes it has.
pub type Written = Result<u32, Reason>;

// What alloc_next answers: what alloc does, and the rover afterwards.
#[derive(Clone, Copy)]
pub struct Roved {
    pub granted: Granted,
    pub rover: u32,
}

// What an answer that is no refusal tells, as the documents' fields.
pub trait Fields {
    // The fields in their order.
    ghost values: { Self → List ℕ };

    // How many there are, in a refusal too.
    ghost COUNT: { ℕ };

    const COUNT: usize;

    // What each kind of answer keeps to.
    ghost laws: { FieldLaws values COUNT };

    // The fields, behind which all is 0.
    fn fields(self) -> [u32; 4]
        ensures { result ≡ four (values self) };
}

impl Fields for () {
    ghost values = { no_fields };

    ghost COUNT = { 0 };

    const COUNT: usize = 0;

    ghost laws = { no_field_laws };

    fn fields(self) -> [u32; 4] {
        [0; 4]
    }
}

impl Fields for Grant {
    ghost values = { grant_fields };

    ghost COUNT = { 2 };

    const COUNT: usize = 2;

    ghost laws = { grant_laws };

    fn fields(self) -> [u32; 4] {
        [self.block, self.granted, 0, 0]
    }
}

impl Fields for Sizes {
    ghost values = { sizes_fields };

    ghost COUNT = { 2 };

    const COUNT: usize = 2;

    ghost laws = { sizes_laws };

    fn fields(self) -> [u32; 4] {
        [self.asked, self.granted, 0, 0]
    }
}

impl Fields for Counts {
    ghost values = { counts_fields };

    ghost COUNT = { 4 };

    const COUNT: usize = 4;

    ghost laws = { counts_laws };

    fn fields(self) -> [u32; 4] {
        [
            self.free_words,
            self.largest,
            self.live_blocks,
            self.free_chunks,
        ]
    }
}

impl Fields for u32 {
    ghost values = { one_field };

    ghost COUNT = { 1 };

    const COUNT: usize = 1;

    ghost laws = { one_field_laws };

    fn fields(self) -> [u32; 4] {
        [self, 0, 0, 0]
    }
}

// An answer in numbers: its code, how many fields it has, and the fields, behind which all is 0. Four fields whatever
// the count, since records and C's arrays take the first of them unasked.
#[derive(Clone, Copy)]
pub struct Numbers {
    pub code: u32,
    pub count: usize,
    pub fields: [u32; 4],
}

// An answer as a record has it: the first two of its fields, which are 0 where it has none.
impl From<Numbers> for Served {
    ghost from_gives = { λ numbers served. served ≡ served_in numbers };

    fn from(numbers: Numbers) -> Served {
        let [block, granted, ..] = numbers.fields;
        Served {
            code: numbers.code,
            block,
            granted,
        }
    }
}

// A refusal that has `count` fields.
pub fn refusal_numbers(count: usize, why: Reason) -> Numbers
    ensures { result ≡ padded_refusal count why }
{
    Numbers {
        code: u32::from(why),
        count,
        fields: [0, 0, 0, 0],
    }
}

// What a call answers, in numbers; a function and no `From`, whose name would not say so.
pub fn in_numbers<F: Fields>(answer: Result<F, Reason>) -> Numbers
    ensures { result ≡ padded (read F.values F.COUNT answer) }
{
    match answer {
        Ok(told) => Numbers {
            code: 0,
            count: F::COUNT,
            fields: told.fields(),
        },
        Err(why) => refusal_numbers(F::COUNT, why),
    }
}
