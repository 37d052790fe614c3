// The rules of the calls, and every theorem that follows from them. Statements and proofs, and the records that they
// speak of: those that callers lend, a batch's requests and next fit's rover, and the answer to one request. This crate
// has no function.
#![tactic(auto)]

// One request of a batch: what is asked, a kind and two numbers, and what is answered, which is filled in.
#[repr(C)]
#[derive(Clone, Copy)]
pub struct Request {
    pub kind: u32,
    pub b: u32,
    pub n: u32,
    pub code: u32,
    pub block: u32,
    pub granted: u32,
}

// What is answered to one request.
#[derive(Clone, Copy)]
pub struct Served {
    pub code: u32,
    pub block: u32,
    pub granted: u32,
}

// Where next fit goes on: a word of the arena, as the last granted call left it, or any number.
#[repr(C)]
#[derive(Clone, Copy)]
pub struct Rover {
    pub at: u32,
}
