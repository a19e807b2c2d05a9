// A reader of the program file: "A reader of the program file gives the rules one after another, each body as a part of the file."
//
// It holds the file and a place. `rule` has plain parameters, so its callers know nothing of a reader. Of an accepted file the rules
// are those of its program, in order, and then None (proofs/Laws/Rules.antt); of any other bytes they are what the walk finds.
#![tactic(auto)]

ghost use Rattle.std.specs.Prelude.{◌≡◌};
ghost use Rattle.format.specs.Walk.{first_at, step_at};
ghost use Rattle.reader.specs.Read.{body_in, onward, place_of};

use format::walk::{Rule, first, part, rule_at};

#[derive(Clone, Copy)]
pub struct Reader<'a> {
    pub file: &'a [u8],
    pub at: usize,
}

impl<'a> Reader<'a> {
    // A reader at the first rule of a file.
    pub fn new(file: &'a [u8]) -> Reader<'a>
        ensures { (result.file ≡ file.entry) × (result.at ≡ first_at file.now) }
    {
        Reader {
            file,
            at: first(file),
        }
    }

    // The rule at the reader's place, and the reader moves on to the next; None where there is none, and it stays.
    #[tactic(auto, unfolding(crate::specs::Read::onward))]
    pub fn next(&mut self) -> Option<Rule>
        ensures { (result ≡ step_at self.old.file.now self.old.at)
            × (self.new.file ≡ self.old.file)
            × (self.new.at ≡ onward self.old.file.now self.old.at) }
    {
        let rule = rule_at(self.file, self.at)?;
        self.at = rule.next;
        Some(rule)
    }

    // The body of a rule that `next` gave, as a part of the file; empty at the end.
    pub fn body(self, rule: Option<Rule>) -> &'a [u8]
        ensures { result.now ≡ body_in self.entry.file.now rule }
    {
        let Some(rule) = rule else {
            return &[];
        };
        part(self.file, rule.body, rule.next)
    }
}

// Rule j of a file, counted from 0, or None where it has fewer: what a reader gives after j calls of `next`.
pub fn rule(file: &[u8], j: usize) -> Option<Rule>
    ensures { result ≡ step_at file.now (place_of file.now j) }
{
    let mut reader = Reader::new(file);
    for _ in 0..j {
        reader.next()?;
    }
    reader.next()
}
