// The state that goes along with each call of the engine by value, and what the calls answer (specs/Answers.antt); beside them the layers
// of a file and the words of loading.
#![tactic(auto)]

pub mod layers;
pub mod loading;

ghost use Rattle.std.specs.Prelude.{◌≡◌};
ghost use Rattle.state.specs.declared.Unclosed.TheVariants as shut;
ghost use Rattle.state.specs.declared.How.TheVariants as how;

use store::Full;

// reach_state: the layer in work, or 65,535 where the run is finished, and the nodes in use; a number, since C keeps it between calls.
#[repr(C)]
#[derive(Clone, Copy)]
pub struct State {
    pub layer: u32,
    pub nodes: u32,
}

// Why a layer is not closed: the first atom that is not settled, or no room for the check.
#[derive(Clone, Copy)]
pub enum Unclosed {
    Unsettled(u32),
    Full,
}

impl From<Full> for Unclosed {
    ghost from_gives = { λ _ r. r ≡ shut.Full };

    fn from(_: Full) -> Unclosed {
        Unclosed::Full
    }
}

// How a run ends.
#[derive(Clone, Copy)]
pub enum How {
    Finished,
    Spent,
    Full,
}

impl From<Full> for How {
    ghost from_gives = { λ _ r. r ≡ how.Full };

    fn from(_: Full) -> How {
        How::Full
    }
}

// How a run ended, the state after its updates, and their number.
#[derive(Clone, Copy)]
pub struct Ran {
    pub how: How,
    pub state: State,
    pub updates: u64,
}
