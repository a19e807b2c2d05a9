// A file with its counts, which go along with it to every function that reads its program.
ghost use Rattle.std.specs.Prelude.{◌≡◌, ◌+◌, ◌≤◌, length};
ghost use Rattle.format.specs.Bytes.{Bytes};
ghost use Rattle.format.specs.Counted.{CountsOf};

use crate::bytes::u16_at;

// F, D and R stand beside the file; the type says that they are the file's own, and that its entries are bytes. That the file has passed
// its check stays in clauses: some ask for all of it and some for all but 11, so that a type for each would be made anew from step to step.
#[derive(Clone, Copy)]
pub struct Program<'a> {
    pub file: &'a [u8],
    pub facts: usize,
    pub derived: usize,
    pub rules: usize,
    ghost counted: { CountsOf file.now facts derived rules },
    ghost bytes: { Bytes file.now },
}

impl<'a> Program<'a> {
    // The program of a file that has its contents.
    pub fn of(file: &'a [u8]) -> Program<'a>
        requires { 28 ≤ length file.now }
        ensures { result.file ≡ file.entry }
    {
        Program {
            file,
            facts: u16_at(file, 6),
            derived: u16_at(file, 14),
            rules: u16_at(file, 22),
        }
    }

    // The number of atoms.
    pub fn atoms(self) -> usize
        ensures { result ≡ self.entry.facts + self.entry.derived }
    {
        self.facts + self.derived
    }
}
