// The calls of include/reach.h, for any file, any memory and any numbers; crate reach_c exports them to C.
//
// Each call tests what 01 says it tests, in 01's order, hands the parts of the lent memory that are used to the crate that does the work,
// and gives its answer in C's numbers (calls/specs/Calls.antt). The six calls over a store open alike, each with a refusal in a struct of
// its own: one function for the openings would be no shorter than the lines.
#![tactic(auto)]

ghost use Rattle.std.specs.Prelude.{◌≡◌};
ghost use Rattle.state.specs.Hand.{lending, handing, zeros};
ghost use Rattle.calls.specs.Calls.{
  read_host,
  stepped,
  load_host,
  update_host,
  close_host,
  ran,
  run_host,
  weighing,
  weight_host,
  sharing,
  given_host,
  listing,
  listing_host,
  layering,
  LayersAnswer,
};
ghost use Rattle.calls.specs.Results.{step_of};

use calls::refusal::Refusal;
use calls::{Counts, Listed, Ran, Shared, Step, Weighed, questioning, stepping};
use format::program::Program;
use state::State;

// Reads a file's counts and total.
pub fn reach_read(file: &[u8]) -> Counts
    ensures { result ≡ read_host file.now }
{
    Counts::of(format::validate::check(file))
}

// "Loading: 1 to 7 in order; then rules ..; 36; 12."
fn loaded(file: &[u8], nodes: &mut [u32], places: &mut [u16]) -> Result<State, Refusal>
    ensures { stepped (step_of zeros result) nodes.new places.new ≡
        load_host file.now (lending nodes.old places.old) }
{
    format::validate::check(file)?;
    if places.len() < 544 {
        return Err(Refusal::Unfit);
    }
    let room = fitting::room(nodes.len());
    stepping::load(Program::of(file), &mut nodes[..room], &mut places[..544])
}

// Loads a file into the lent memory.
pub fn reach_load(file: &[u8], nodes: &mut [u32], places: &mut [u16]) -> Step
    ensures { stepped result nodes.new places.new ≡
        load_host file.now (lending nodes.old places.old) }
{
    Step::of(loaded(file, nodes, places), State { layer: 0, nodes: 0 })
}

// Updates an atom of the layer in work.
pub fn reach_update(
    file: &[u8],
    nodes: &mut [u32],
    places: &mut [u16],
    state: State,
    atom: u32,
) -> Step
    ensures { stepped result nodes.new places.new ≡
        update_host file.now (handing nodes.old places.old state) atom }
{
    if !fitting::fits(file, nodes, places, state) {
        return Step::of(Err(Refusal::Unfit), state);
    }
    let program = Program::of(file);
    let room = fitting::room(nodes.len());
    let next = stepping::update(program, &mut nodes[..room], &mut places[..544], state, atom);
    Step::of(next, state)
}

// Closes the layer in work.
pub fn reach_close(file: &[u8], nodes: &mut [u32], places: &mut [u16], state: State) -> Step
    ensures { stepped result nodes.new places.new ≡
        close_host file.now (handing nodes.old places.old state) }
{
    if !fitting::fits(file, nodes, places, state) {
        return Step::of(Err(Refusal::Unfit), state);
    }
    let program = Program::of(file);
    let room = fitting::room(nodes.len());
    let next = stepping::close(program, &mut nodes[..room], &places[..544], state);
    Step::of(next, state)
}

// Runs with a budget of updates.
pub fn reach_run(
    file: &[u8],
    nodes: &mut [u32],
    places: &mut [u16],
    state: State,
    budget: u64,
) -> Ran
    ensures { ran result nodes.new places.new ≡
        run_host file.now (handing nodes.old places.old state) budget }
{
    if !fitting::fits(file, nodes, places, state) {
        return Ran::of(Err(Refusal::Unfit), state);
    }
    let program = Program::of(file);
    let room = fitting::room(nodes.len());
    let ran = stepping::run(
        program,
        &mut nodes[..room],
        &mut places[..544],
        state,
        budget,
    );
    Ran::of(Ok(ran), state)
}

// The weight so far of an atom.
pub fn reach_weight(
    file: &[u8],
    nodes: &[u32],
    places: &[u16],
    state: State,
    atom: u32,
    numbers: &mut [u64],
) -> Weighed
    ensures { weighing result nodes.now places.now numbers.new ≡
        weight_host file.now (handing nodes.now places.now state) atom numbers.old }
{
    if !fitting::fits(file, nodes, places, state) {
        return Weighed::of(Err(Refusal::Unfit));
    }
    let program = Program::of(file);
    let room = fitting::room(nodes.len());
    let weight = questioning::weight(
        program,
        &nodes[..room],
        &places[..544],
        state,
        atom,
        numbers,
    );
    Weighed::of(weight)
}

// The weight of an atom of a finished run given evidence.
pub fn reach_given(
    file: &[u8],
    nodes: &mut [u32],
    places: &[u16],
    state: State,
    atom: u32,
    evidence: &[u16],
    numbers: &mut [u64],
) -> Shared
    ensures { sharing result nodes.new places.now numbers.new ≡
        given_host file.now (handing nodes.old places.now state) atom evidence.now
        numbers.old }
{
    if !fitting::fits(file, nodes, places, state) {
        return Shared::of(Err(Refusal::Unfit));
    }
    let program = Program::of(file);
    let room = fitting::room(nodes.len());
    let weights = questioning::given(
        program,
        &mut nodes[..room],
        &places[..544],
        state,
        atom,
        evidence,
        numbers,
    );
    Shared::of(weights)
}

// The listing of an atom of a finished run.
pub fn reach_listing(
    file: &[u8],
    nodes: &[u32],
    places: &[u16],
    state: State,
    atom: u32,
    out: &mut [u8],
) -> Listed
    ensures { listing result nodes.now places.now out.new ≡
        listing_host file.now (handing nodes.now places.now state) atom out.old }
{
    if !fitting::fits(file, nodes, places, state) {
        return Listed::of(Err(Refusal::Unfit));
    }
    let program = Program::of(file);
    let room = fitting::room(nodes.len());
    let length = questioning::listing(program, &nodes[..room], &places[..544], state, atom, out);
    Listed::of(length)
}

// The smallest layers that the rules allow, or a chain of rules that leaves none.
pub fn reach_layers(file: &[u8], out: &mut [u8]) -> Listed
    ensures { LayersAnswer file.now out.old (layering result out.new) }
{
    let (refusal, detail, length) = match layering::tell(file, out) {
        Ok(written) => (0, 0, u64::from(written)),
        Err(why) => (why.number(), why.detail(), why.length()),
    };
    Listed {
        refusal,
        detail,
        length,
    }
}
