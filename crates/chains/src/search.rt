// The search for a chain through an atom: the places that rules lead to, each once, with the way back (specs/Calls.antt).
//
// Atoms below x, the one that the search is from, are left out: they were searched before and are on no chain.
ghost use Rattle.std.specs.Prelude.{◌≡◌, cond, ◌%◌, eqb};
ghost use Rattle.chains.specs.Searching.{
  AddAsked,
  with_place,
  LeadAsked,
  LeadDone,
  VisitAsked,
  VisitDone,
  ExpandAsked,
  ExpandDone,
  SearchAsked,
  SearchDone,
  LowestAsked,
  LowestDone,
};

use format::bytes::u16_at;
use format::program::Program;
use index::Rules;

// 1 where the literal is negated, or where a negated link was passed on the way to place p.
fn flag(lit: usize, p: usize) -> usize
    ensures { result ≡ cond (eqb (lit % 2) 1) 1 (p % 2) }
{
    if lit % 2 == 1 { 1 } else { p % 2 }
}

// The places reached, `count` of them in `queue`, each with the entry and the rule by which it was reached; and at each place 1 more than
// its entry, or 0: an Option would double the table, which stands on the stack. Each list is read apart, the queue going on
// and the other two coming back.
#[derive(Drop)]
pub struct Search {
    pub queue: [u16; 1024],
    pub from: [u16; 1024],
    pub by: [u16; 1024],
    pub entry: [u16; 1024],
    pub count: usize,
}

impl Search {
    // Puts a place behind those known, reached from entry k by a rule.
    fn add(&mut self, place: usize, k: usize, rule: usize)
        requires { AddAsked place k rule self.old }
        ensures { self.new ≡ with_place self.old place k rule }
    {
        self.queue[self.count] = place as u16;
        self.from[self.count] = k as u16;
        self.by[self.count] = rule as u16;
        self.count += 1;
        self.entry[place] = self.count as u16;
    }

    // The place that a rule's literal leads to from entry k is reached.
    fn lead(&mut self, program: Program, lit: usize, x: usize, rule: usize, k: usize)
        requires { LeadAsked program.file.now lit x rule k self.old }
        ensures { LeadDone program.entry.file.now lit x k self.old self.new }
    {
        if lit / 2 < x {
            return;
        }
        let place = 2 * (lit / 2 - program.facts) + flag(lit, usize::from(self.queue[k]));
        if 0 < self.entry[place] {
            return;
        }
        self.add(place, k, rule);
    }

    // The places that the rule at `at` leads to from entry k are reached.
    fn visit(&mut self, program: Program, at: usize, x: usize, rule: usize, k: usize)
        requires { VisitAsked program.file.now at x rule k self.old }
        ensures { VisitDone program.entry.file.now x rule k self.old self.new }
    {
        for i in 0..u16_at(program.file, at + 2) {
            let lit = u16_at(program.file, at + 4 + 2 * i);
            self.lead(program, lit, x, rule, k);
        }
    }

    // The places that the rules of entry k's atom lead to are reached.
    fn expand(&mut self, program: Program, rules: &Rules, x: usize, k: usize)
        requires { ExpandAsked program.file.now rules.now x k self.old }
        ensures { ExpandDone program.entry.file.now x k self.old self.new }
    {
        let atom = program.facts + usize::from(self.queue[k]) / 2;
        let mut rule = rules.first_of(atom);
        // links and no index, as in building's `sum`
        while rule < program.rules {
            self.visit(program, rules.start(rule), x, rule, k);
            rule = rules.after(rule);
        }
    }

    // All places that rules lead to from atom x are reached, and no others.
    fn search(&mut self, program: Program, rules: &Rules, x: usize)
        requires { SearchAsked program.file.now rules.now x }
        ensures { SearchDone program.entry.file.now x self.new }
    {
        let start = 2 * (x - program.facts);
        self.entry[..2 * program.derived].fill(0);
        self.queue[0] = start as u16;
        self.entry[start] = 1;
        self.count = 1;
        // no `for`: the queue grows as it is gone through
        let mut k = 0;
        while k < self.count {
            self.expand(program, rules, x, k);
            k += 1;
        }
    }

    // The lowest atom on a chain, of a file that has one; the search from it is left.
    pub fn lowest(&mut self, program: Program, rules: &Rules) -> usize
        requires { LowestAsked program.file.now rules.now }
        ensures { LowestDone program.entry.file.now self.new result }
    {
        for x in program.facts..program.atoms() {
            self.search(program, rules, x);
            if 0 < self.entry[2 * (x - program.facts) + 1] {
                return x;
            }
        }
        unreachable!()
    }
}
