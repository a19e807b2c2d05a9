// "Fit together": the test that every later call makes first (specs/Fit.antt).
#![tactic(auto)]

ghost use Rattle.std.specs.Prelude.{◌||◌, ◌≡◌, map, min, eqb};
ghost use Rattle.meaning.specs.Lists.{all};
ghost use Rattle.format.specs.File.{decode};
ghost use Rattle.format.specs.Passed.{Passed};
ghost use Rattle.store.specs.Store.{unpack};
ghost use Rattle.rounds.specs.Layers.{finished_layer, has_atoms};
ghost use Rattle.state.specs.Hand.{handing};
ghost use Rattle.fitting.specs.Fit.{as_loaded, store_fits, fit_together};
ghost use Rattle.fitting.specs.Inner.{LoadedAsked, FitAsked};

use diagram::Node;
use format::program::Program;
use state::State;
use state::layers::layers_of;
use store::word::pack;

// N: the lent words as far as they are used.
pub fn room(len: usize) -> usize
    ensures { result ≡ min len 4096 }
{
    len.min(4096)
}

// Whether the facts' nodes and places are as loaded.
fn as_loaded(nodes: &[u32], places: &[u16], facts: usize) -> bool
    requires { LoadedAsked nodes.now places.now facts }
    ensures { result ≡ as_loaded facts (map unpack nodes.now) places.now }
{
    for i in 0..facts {
        let node = Node {
            fact: i as u32,
            low: 0,
            high: 1,
        };
        if nodes[i] != pack(node) || usize::from(places[i]) != i + 2 {
            return false;
        }
    }
    true
}

// Whether all words are 0. All are looked at: a loop with no way out tests several at once.
fn all_zero(words: &[u32]) -> bool
    ensures { result ≡ all (eqb 0) words.now }
{
    let mut zero = true;
    for &word in words {
        zero &= word == 0;
    }
    zero
}

// Whether the layer in work has atoms or the run is finished.
fn in_work(program: Program, layer: u32) -> bool
    requires { Passed program.file.now }
    ensures { result ≡ (eqb layer finished_layer || has_atoms (decode program.entry.file.now) layer) }
{
    layer == 65535 || layers_of(program).iter().any(|&l| u32::from(l) == layer)
}

// The test over the parts of the lent memory that are used. The walk over all pairs of nodes comes last.
fn fits_in(program: Program, nodes: &[u32], places: &[u16], state: State) -> bool
    requires { FitAsked program.file.now nodes.now places.now }
    ensures { result ≡ store_fits (decode program.entry.file.now) nodes.now places.now state.layer state.nodes }
{
    let count = state.nodes as usize;
    if count < program.facts || nodes.len() < count {
        return false;
    }
    let (used, unused) = nodes.split_at(count);
    let (atoms, others) = places.split_at(program.atoms());
    as_loaded(used, places, program.facts)
        && all_zero(unused)
        && others.iter().all(|&place| place == 0)
        && atoms.iter().all(|&place| usize::from(place) < count + 2)
        && in_work(program, state.layer)
        && store::is_sound(used, program.facts as u32)
}

// Whether a file, a store and a state fit together.
pub fn fits(file: &[u8], nodes: &[u32], places: &[u16], state: State) -> bool
    ensures { result ≡ fit_together file.now (handing nodes.now places.now state) }
{
    if format::validate::check(file).is_err() || places.len() < 544 {
        return false;
    }
    let words = &nodes[..room(nodes.len())];
    fits_in(Program::of(file), words, &places[..544], state)
}
