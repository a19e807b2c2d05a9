// The program file (document 01, "The program file"): the check of a file, and the walk over its rules.
//
// specs/File.antt says what the bytes mean, specs/Refusals.antt which refusal a file gets, and specs/Walk.antt what the walk finds. Of its
// public functions only those of `bytes` ask for something, a place inside, and `Program::of` for the contents' 28 bytes.
#![tactic(auto)]

pub mod bytes;
mod contents;
mod facts;
pub mod numbers;
pub mod program;
mod rules;
mod tables;
pub mod validate;
pub mod walk;

// Why a file is refused. specs/Refusals.antt gives document 01's number and detail for each.
#[derive(Clone, Copy)]
pub enum Refusal {
    Length,
    Contents,
    Counts,
    Offset,
    Weightless(u32),
    Total,
    Layerless(u32),
    Broken(u32),
    LongBody(u32),
    Unknown(u32),
    Layers(u32),
}

// What an accepted file holds: F, D, R and the total.
#[derive(Clone, Copy)]
pub struct Accepted {
    pub facts: u32,
    pub derived: u32,
    pub rules: u32,
    pub total: u64,
}
