// The reply to a trial.
ghost use Rattle.std.specs.Prelude.{◌≡◌, ◌≤◌, ◌<◌, length};
ghost use Rattle.layout.specs.Numbers.{word_values};
ghost use Rattle.trials.specs.Trials.{numbers_of, Replies};

use super::{calls, parts};
use answers::Numbers;

// What is replied to a trial, but for the words: the answer, and how many words were handed back. The part is the
// caller's slice, so its words are counted here.
#[derive(Clone, Copy)]
pub struct Reply {
    pub answered: Numbers,
    pub count: usize,
}

// The six numbers with which a reply begins; no `From`, since it asks for a bound.
pub fn numbers(reply: Reply) -> [u32; 6]
    requires { reply.count < word_values }
    ensures { result ≡ numbers_of reply }
{
    let answered = reply.answered;
    let [first, second, third, fourth] = answered.fields;
    [
        answered.code,
        first,
        second,
        third,
        fourth,
        reply.count as u32,
    ]
}

// Makes the call of a trial; what a view hands back is copied to the start of `part`, which is at least as long as the
// arena: the caller's two slices, whose lengths no type joins.
pub fn reply_to(call: u32, b: u32, n: u32, a: &mut [u32], part: &mut [u32]) -> Reply
    requires { length a.old ≤ length part.old }
    ensures { Replies call b n a.old result a.new part.new }
{
    match call {
        7 => Reply {
            answered: answers::in_numbers(Ok(())),
            count: parts::look(a, b, part),
        },
        8 => Reply {
            answered: answers::in_numbers(Ok(())),
            count: parts::overwrite(a, b, n, part),
        },
        _ => Reply {
            answered: calls::answer(call, b, n, a),
            count: 0,
        },
    }
}
