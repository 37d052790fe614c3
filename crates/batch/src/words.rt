// A batch whose records are plain words, six to each, in the order of a record's fields: for callers in Rattle, whom no
// function that is lent records can serve.
ghost use Rattle.std.specs.Prelude.{◌≡◌, [], ◌∷◌, ◌+◌, ◌<◌, length};
ghost use Rattle.std.proofs.lemmas.List.Edits.{sets};
ghost use Rattle.rules.specs.Batches.{batch_on};
ghost use Rattle.batch.specs.SixWords.{records_in, FillsWords};

use super::serve;
use rules::Served;

// How many words a record has, and how many of them ask.
const RECORD_WORDS: usize = 6;

const ASKING_WORDS: usize = 3;

// Puts an answer behind what the record at `at` asks.
fn put_answer(records: &mut [u32], at: usize, served: Served)
    requires { at + 5 < length records.old }
    ensures { records.new ≡ sets records.old (at + 3) (served.code ∷ served.block ∷ served.granted ∷ []) }
{
    let from = at + ASKING_WORDS;
    records[from] = served.code;
    records[from + 1] = served.block;
    records[from + 2] = served.granted;
}

// Answers each request of a list, in order, in its own record; up to five words that are left over stay as they are.
pub fn run(a: &mut [u32], records: &mut [u32])
    ensures { FillsWords (batch_on a.old (records_in records.old))
        records.old records.new a.new }
{
    // By their places: of a slice that was lent in chunks no proof knows what it holds afterwards.
    for record in 0..records.len() / RECORD_WORDS {
        let at = record * RECORD_WORDS;
        let served = serve(a, records[at], records[at + 1], records[at + 2]);
        put_answer(records, at, served);
    }
}
