// A request answered: the call on the lent words, and its reply (`reply`).
#![tactic(auto)]

mod reply;

ghost use Rattle.std.specs.Prelude.{◌≡◌, ◌+◌, ◌≤◌, length};
ghost use Rattle.requests.specs.declared.Request.TheVariants.{Start};
ghost use Rattle.answers.specs.Padded.{padded};
ghost use Rattle.answers.specs.Readings.{read, no_fields};
ghost use Rattle.replies.specs.Boards.{lending, longest_reply, replied};
ghost use Rattle.replies.specs.Answering.{Makes, Answers};

use answers::Numbers;
use layout::Reason;
use requests::Request;

// A buffer of words, of which the first `lent` are lent to the calls: how many is a number beside all words, since a
// start may lend more of them. Each method says that `words` is still the same reference: so the words of who made the
// board are what the board leaves.
#[derive(Drop)]
pub struct Board<'a> {
    pub words: &'a mut [u32],
    pub lent: usize,
    ghost lendable: { lent ≤ length words.now },
}

impl<'a> Board<'a> {
    // Answers a request; the reply is put at `at`, and where it ends is given.
    pub fn answer(&mut self, request: Request, out: &mut [u8], at: usize) -> usize
        requires { at + longest_reply ≤ length out.old }
        ensures same_reference { self.new.words.ghost_name ≡ self.old.words.ghost_name }
        ensures answered { Answers (replied request (lending self.old.words.now self.old.lent))
            self.new.words.now self.new.lent at out.old result out.new }
    {
        let numbers = self.make(request);
        reply::put_reply(out, at, request.kind(), numbers)
    }

    // Makes a request's call on the lent words; a malformed line makes none.
    fn make(&mut self, request: Request) -> Numbers
        ensures same_reference { self.new.words.ghost_name ≡ self.old.words.ghost_name }
        ensures made { Makes request (lending self.old.words.now self.old.lent) self.new.words.now self.new.lent result }
    {
        let lent_words = &mut self.words[..self.lent];
        match request {
            Request::Start(n) => answers::in_numbers(self.start(n as usize)),
            Request::Alloc(n) => answers::in_numbers(arena::alloc(lent_words, n)),
            Request::Free(b) => answers::in_numbers(arena::free(lent_words, b)),
            Request::Realloc(b, n) => answers::in_numbers(arena::realloc(lent_words, b, n)),
            Request::Report => answers::in_numbers(arena::report(lent_words)),
            Request::Malformed => answers::refusal_numbers(0, Reason::Frame),
        }
    }

    // A start lends the first `n` words; one that is refused changes nothing.
    fn start(&mut self, n: usize) -> Result<(), Reason>
        ensures same_reference { self.new.words.ghost_name ≡ self.old.words.ghost_name }
        ensures made { Makes (Start n) (lending self.old.words.now self.old.lent)
            self.new.words.now self.new.lent (padded (read no_fields 0 result)) }
    {
        if self.words.len() < n {
            return Err(Reason::Length);
        }
        arena::start(&mut self.words[..n])?;
        self.lent = n;
        Ok(())
    }
}
