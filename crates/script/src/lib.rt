// Runs a script of builds over a store: how the tests drive the store and the combinations, from nothing up.
//
// An instruction has 5 bytes: an operation, then two numbers of 2 bytes. 0 builds a fact; 1 the conjunction, 2 the
// disjunction of two earlier results; 3 the negation of one. Its result is the next one.
#![tactic(auto)]

ghost use Rattle.std.specs.Prelude.{◌≤◌, ◌<◌, ◌+◌, ◌*◌, length};
ghost use Rattle.script.specs.Script.{op, first, second};
ghost use Rattle.combine.specs.Calls.{Kept};
ghost use Rattle.script.specs.Calls.{Ran, RunAsked, Parsed, StepAsked, StepDone};

use combine::{Builder, Op};
use diagram::Node;
use store::{Full, Store};

// How a script ends: after its last instruction, at one that is not valid, or at one for whose result there is no room.
#[derive(Clone, Copy)]
pub enum How {
    Done,
    Bad,
    Full,
}

// The same with the number of results and of nodes.
#[derive(Clone, Copy)]
pub struct End {
    pub how: How,
    pub results: u32,
    pub nodes: u32,
}

// What is built: a fact, or of earlier results.
#[derive(Clone, Copy)]
enum Instruction {
    Fact(u16),
    Both(Op, u16, u16),
    Not(u16),
}

// The instruction at place `i`, if it is valid after as many results.
fn parse(script: &[u8], i: usize) -> Option<Instruction>
    requires { 5 * i + 4 < length script.now }
    ensures { Parsed (op script.now i) (first script.now i) (second script.now i) i result }
{
    let at = 5 * i;
    let x = u16::from_le_bytes([script[at + 1], script[at + 2]]);
    let y = u16::from_le_bytes([script[at + 3], script[at + 4]]);
    let earlier = usize::from(x) < i;
    let both = earlier && usize::from(y) < i;
    match script[at] {
        0 if x < 32 => Some(Instruction::Fact(x)),
        1 if both => Some(Instruction::Both(Op::And, x, y)),
        2 if both => Some(Instruction::Both(Op::Or, x, y)),
        3 if earlier => Some(Instruction::Not(x)),
        _ => None,
    }
}

// Builds the result of an instruction after the results so far.
fn step(b: &mut Builder, results: &[u32], instruction: Instruction) -> Result<u32, Full>
    requires { StepAsked b.old results.now instruction }
    ensures { StepDone b.old b.new results.now instruction result }
{
    match instruction {
        Instruction::Fact(x) => b.store.make(Node {
            fact: u32::from(x),
            low: 0,
            high: 1,
        }),
        Instruction::Both(op, x, y) => {
            b.combine(32, op, results[usize::from(x)], results[usize::from(y)])
        }
        Instruction::Not(x) => b.negate(32, results[usize::from(x)]),
    }
}

// Runs a script in a builder of a store of zeros without nodes.
fn run_in(b: &mut Builder, results: &mut [u32], script: &[u8]) -> End
    requires { RunAsked b.old results.old }
    ensures lent { Kept b.old b.new }
    ensures ran { Ran b.old.store.now.words.now b.new.store.now.words.now results.old results.new script.now result }
{
    let steps = results.len().min(script.len() / 5);
    for made in 0..steps {
        let count = b.store.count;
        let Some(instruction) = parse(script, made) else {
            return End {
                how: How::Bad,
                results: made as u32,
                nodes: count,
            };
        };
        match step(b, &results[..made], instruction) {
            Ok(n) => results[made] = n,
            Err(Full) => {
                b.store.take_back(count);
                return End {
                    how: How::Full,
                    results: made as u32,
                    nodes: count,
                };
            }
        }
    }
    End {
        how: How::Done,
        results: steps as u32,
        nodes: b.store.count,
    }
}

// Runs a script over a store of nodes.len() places, 4,096 at most.
pub fn run(nodes: &mut [u32], results: &mut [u32], script: &[u8]) -> End
    requires { (length nodes.old ≤ 4096) × (length results.old ≤ 65536) }
    ensures { Ran nodes.old nodes.new results.old results.new script.now result }
{
    nodes.fill(0);
    let mut store = Store {
        words: nodes,
        count: 0,
    };
    let mut b = Builder {
        store: &mut store,
        memo: &mut [0; 4096],
        image: &mut [0; 4098],
    };
    run_in(&mut b, results, script)
}
