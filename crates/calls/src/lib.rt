// What the calls of include/reach.h answer, in C's numbers and structs (specs/Calls.antt), and the functions that do their work over the
// parts of the lent memory that are used.
//
// The work gives a result; `of` beside each struct of C is where it is put in C's numbers (specs/Results.antt). Program, nodes, places and
// state go along one by one, as C lends them: some calls write nodes or places and others read them, so that no struct holds them for all.
#![tactic(auto)]

pub mod questioning;
pub mod refusal;
pub mod stepping;

ghost use Rattle.std.specs.Prelude.{◌≡◌};
ghost use Rattle.calls.specs.Calls.{counts};
ghost use Rattle.calls.specs.Outcomes.{outcome_of};
ghost use Rattle.calls.specs.Results.{step_of, run_answer, weighed_of, shared_of, listed_of};

use format::Accepted;
use refusal::{Refusal, numbers};
use state::{How, State};

// reach_counts
#[repr(C)]
#[derive(Clone, Copy)]
pub struct Counts {
    pub refusal: u32,
    pub detail: u32,
    pub facts: u32,
    pub derived: u32,
    pub total: u64,
}

impl Counts {
    pub fn of(verdict: Result<Accepted, format::Refusal>) -> Counts
        ensures { result ≡ counts verdict }
    {
        match verdict {
            Ok(accepted) => Counts {
                refusal: 0,
                detail: 0,
                facts: accepted.facts,
                derived: accepted.derived,
                total: accepted.total,
            },
            Err(why) => Counts {
                refusal: why.number(),
                detail: why.detail(),
                facts: 0,
                derived: 0,
                total: 0,
            },
        }
    }
}

// reach_step
#[repr(C)]
#[derive(Clone, Copy)]
pub struct Step {
    pub refusal: u32,
    pub detail: u32,
    pub state: State,
}

impl Step {
    // A refused call gives this state back.
    pub fn of(answer: Result<State, Refusal>, state: State) -> Step
        ensures { result ≡ step_of state answer }
    {
        let (refusal, detail) = numbers(&answer);
        Step {
            refusal,
            detail,
            state: answer.unwrap_or(state),
        }
    }
}

// reach_ran
#[repr(C)]
#[derive(Clone, Copy)]
pub struct Ran {
    pub refusal: u32,
    pub detail: u32,
    pub state: State,
    pub outcome: u32,
    pub updates: u64,
}

impl Ran {
    // A refused run gives this state back.
    pub fn of(answer: Result<state::Ran, Refusal>, state: State) -> Ran
        ensures { result ≡ run_answer state answer }
    {
        let (refusal, detail) = numbers(&answer);
        let (state, outcome, updates) = match answer {
            Ok(ran) => (ran.state, outcome_of(ran.how), ran.updates),
            Err(_) => (state, 0, 0),
        };
        Ran {
            refusal,
            detail,
            state,
            outcome,
            updates,
        }
    }
}

// "1 finished, 2 spent, 3 full"
fn outcome_of(how: How) -> u32
    ensures { result ≡ outcome_of how }
{
    match how {
        How::Finished => 1,
        How::Spent => 2,
        How::Full => 3,
    }
}

// reach_weighed
#[repr(C)]
#[derive(Clone, Copy)]
pub struct Weighed {
    pub refusal: u32,
    pub detail: u32,
    pub weight: u64,
}

impl Weighed {
    pub fn of(answer: Result<u64, Refusal>) -> Weighed
        ensures { result ≡ weighed_of answer }
    {
        let (refusal, detail) = numbers(&answer);
        Weighed {
            refusal,
            detail,
            weight: answer.unwrap_or(0),
        }
    }
}

// reach_shared
#[repr(C)]
#[derive(Clone, Copy)]
pub struct Shared {
    pub refusal: u32,
    pub detail: u32,
    pub both: u64,
    pub evidence: u64,
}

impl Shared {
    pub fn of(answer: Result<(u64, u64), Refusal>) -> Shared
        ensures { result ≡ shared_of answer }
    {
        let (refusal, detail) = numbers(&answer);
        let (both, evidence) = answer.unwrap_or((0, 0));
        Shared {
            refusal,
            detail,
            both,
            evidence,
        }
    }
}

// reach_listed
#[repr(C)]
#[derive(Clone, Copy)]
pub struct Listed {
    pub refusal: u32,
    pub detail: u32,
    pub length: u64,
}

impl Listed {
    pub fn of(answer: Result<u64, Refusal>) -> Listed
        ensures { result ≡ listed_of answer }
    {
        let (refusal, detail) = numbers(&answer);
        Listed {
            refusal,
            detail,
            length: answer.unwrap_or(0),
        }
    }
}
