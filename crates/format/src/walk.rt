// The walk over the rules of a file, one after another, each body as a part of the file.
//
// Of an accepted file, `first` is where its first rule stands, `rule_at` at a rule's place tells its head, its body's place
// and where the next rule stands, and after the last rule it says None (specs/Laws/Walked.antt). Of any other bytes it says
// what stands there all the same, and ends.
ghost use Rattle.std.specs.Prelude.{◌≡◌};
ghost use Rattle.format.specs.Walk.{first_at, step_at, part_of, entry_at};

use crate::bytes::u16_at;

// A rule at a place of a file: its head, where its body starts, and where it ends and the next rule starts.
#[derive(Clone, Copy)]
pub struct Rule {
    pub head: usize,
    pub body: usize,
    pub next: usize,
}

// Where the rules start.
#[tactic(auto, unfolding(crate::specs::Walk::first_at))]
pub fn first(file: &[u8]) -> usize
    ensures { result ≡ first_at file.now }
{
    if file.len() < 28 {
        return file.len();
    }
    28 + 4 * u16_at(file, 6) + u16_at(file, 14)
}

// The rule at a place, where a whole one stands there.
#[tactic(auto, unfolding(crate::specs::Walk::step_at, crate::specs::File::after))]
pub fn rule_at(file: &[u8], at: usize) -> Option<Rule>
    ensures { result ≡ step_at file.now at }
{
    if file.len() < 4 || file.len() - 4 < at {
        return None;
    }
    let next = at + 4 + 2 * u16_at(file, at + 2);
    if file.len() < next {
        return None;
    }
    Some(Rule {
        head: u16_at(file, at),
        body: at + 4,
        next,
    })
}

// The part of a file from one place to another; empty where there is none.
#[tactic(auto, unfolding(crate::specs::Walk::part_of))]
pub fn part(file: &[u8], from: usize, to: usize) -> &[u8]
    ensures { result.now ≡ part_of file.now from to }
{
    file.get(from..to).unwrap_or(&[])
}

// Literal i of a body as in the file, 2 × atom, plus 1 if negated; none past the last.
#[tactic(auto, unfolding(crate::specs::Walk::entry_at))]
pub fn literal_at(body: &[u8], i: usize) -> Option<usize>
    ensures { result ≡ entry_at body.now i }
{
    if i < body.len() / 2 {
        Some(u16_at(body, 2 * i))
    } else {
        None
    }
}
