// The exports of include/reach.h: each calls the function of its name in crate reach and states its clauses again, since no crate can stand
// on a static library.
#![tactic(auto)]

ghost use Rattle.std.specs.Prelude.{◌≡◌};
ghost use Rattle.state.specs.Hand.{lending, handing};
ghost use Rattle.calls.specs.Calls.{
  read_host,
  stepped,
  load_host,
  update_host,
  close_host,
  ran,
  run_host,
  weighing,
  weight_host,
  sharing,
  given_host,
  listing,
  listing_host,
  layering,
  LayersAnswer,
};

use calls::{Counts, Listed, Ran, Shared, Step, Weighed};
use state::State;

// Reads a file's counts and total.
#[unsafe(no_mangle)]
pub extern "C" fn reach_read(file: &[u8]) -> Counts
    ensures { result ≡ read_host file.now }
{
    reach::reach_read(file)
}

// Loads a file into the lent memory.
#[unsafe(no_mangle)]
pub extern "C" fn reach_load(file: &[u8], nodes: &mut [u32], places: &mut [u16]) -> Step
    ensures { stepped result nodes.new places.new ≡
        load_host file.now (lending nodes.old places.old) }
{
    reach::reach_load(file, nodes, places)
}

// Updates an atom of the layer in work.
#[unsafe(no_mangle)]
pub extern "C" fn reach_update(
    file: &[u8],
    nodes: &mut [u32],
    places: &mut [u16],
    state: State,
    atom: u32,
) -> Step
    ensures { stepped result nodes.new places.new ≡
        update_host file.now (handing nodes.old places.old state) atom }
{
    reach::reach_update(file, nodes, places, state, atom)
}

// Closes the layer in work.
#[unsafe(no_mangle)]
pub extern "C" fn reach_close(
    file: &[u8],
    nodes: &mut [u32],
    places: &mut [u16],
    state: State,
) -> Step
    ensures { stepped result nodes.new places.new ≡
        close_host file.now (handing nodes.old places.old state) }
{
    reach::reach_close(file, nodes, places, state)
}

// Runs with a budget of updates.
#[unsafe(no_mangle)]
pub extern "C" fn reach_run(
    file: &[u8],
    nodes: &mut [u32],
    places: &mut [u16],
    state: State,
    budget: u64,
) -> Ran
    ensures { ran result nodes.new places.new ≡
        run_host file.now (handing nodes.old places.old state) budget }
{
    reach::reach_run(file, nodes, places, state, budget)
}

// The weight so far of an atom.
#[unsafe(no_mangle)]
pub extern "C" fn reach_weight(
    file: &[u8],
    nodes: &[u32],
    places: &[u16],
    state: State,
    atom: u32,
    numbers: &mut [u64],
) -> Weighed
    ensures { weighing result nodes.now places.now numbers.new ≡
        weight_host file.now (handing nodes.now places.now state) atom numbers.old }
{
    reach::reach_weight(file, nodes, places, state, atom, numbers)
}

// The weight of an atom of a finished run given evidence.
#[unsafe(no_mangle)]
pub extern "C" fn reach_given(
    file: &[u8],
    nodes: &mut [u32],
    places: &[u16],
    state: State,
    atom: u32,
    evidence: &[u16],
    numbers: &mut [u64],
) -> Shared
    ensures { sharing result nodes.new places.now numbers.new ≡
        given_host file.now (handing nodes.old places.now state) atom evidence.now
        numbers.old }
{
    reach::reach_given(file, nodes, places, state, atom, evidence, numbers)
}

// The listing of an atom of a finished run.
#[unsafe(no_mangle)]
pub extern "C" fn reach_listing(
    file: &[u8],
    nodes: &[u32],
    places: &[u16],
    state: State,
    atom: u32,
    out: &mut [u8],
) -> Listed
    ensures { listing result nodes.now places.now out.new ≡
        listing_host file.now (handing nodes.now places.now state) atom out.old }
{
    reach::reach_listing(file, nodes, places, state, atom, out)
}

// The smallest layers that the rules allow, or a chain of rules that leaves none.
#[unsafe(no_mangle)]
pub extern "C" fn reach_layers(file: &[u8], out: &mut [u8]) -> Listed
    ensures { LayersAnswer file.now out.old (layering result out.new) }
{
    reach::reach_layers(file, out)
}
