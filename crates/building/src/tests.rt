// Functions that no other crate calls today, each called once: what they answer and build is worked out by hand from
// document 01 and, for the words, include/reach.h.
ghost use Rattle.std.specs.Prelude.{◌≡◌, ◌<◌, ◌/◌, ℕ, replicate, get_or};
ghost use Rattle.store.specs.Store.{nodes_in, Sound};
ghost use Rattle.building.specs.Calls.{Placed};

use super::*;
use format::validate::check;
use store::Store;

// Two facts, 0 and 1, and one derived atom with the rules "2 if not 1" and "2 if not 0".
const FILE: [u8; 49] = [
    // three contents: F, D and R, and where they stand
    1, 0, 3, 0, 1, 0, 2, 0, 28, 0, 0, 0, 2, 0, 1, 0, 36, 0, 0, 0, 3, 0, 2, 0, 37, 0, 0, 0,
    // the facts' weights
    1, 0, 1, 0, 1, 0, 1, 0,
    // the atom's layer
    1,
    // its rules
    2, 0, 1, 0, 3, 0, 2, 0, 1, 0, 1, 0,
];

// The words of the two facts' nodes, and room for four more.
const WORDS: [u32; 6] = [1, 67108865, 0, 0, 0, 0];

// The facts' places among those of all atoms.
fn place(places: &mut [u16; 544])
    requires { places.old ≡ replicate 544 0 }
    ensures { Placed places.new 2 }
{
    places[0] = 2;
    places[1] = 3;
}

// What conjoin_all answers over the two facts' nodes.
fn conjoined(words: &mut [u32; 6], literals: &[u16]) -> Option<u32>
    requires sound { Sound 32 (nodes_in words.old 2) }
    requires known { (i : ℕ) → get_or literals.now i 0 / 2 < 544 }
{
    let mut places = [0; 544];
    place(&mut places);
    let mut memo = [0; 64];
    let mut image = [0; 4098];
    let mut store = Store { words, count: 2 };
    let mut builder = Builder {
        store: &mut store,
        memo: &mut memo,
        image: &mut image,
    };
    conjoin_all(&mut builder, &places, literals).ok()
}

// What sum answers over the same nodes; None too where the file is refused.
fn summed(words: &mut [u32; 6], file: &[u8], atom: usize) -> Option<u32>
    requires sound { Sound 32 (nodes_in words.old 2) }
    requires small { atom < 544 }
{
    let Ok(_) = check(file) else {
        return None;
    };
    let program = Program::of(file);
    let rules = Rules::of(program);
    let mut places = [0; 544];
    place(&mut places);
    let mut memo = [0; 64];
    let mut image = [0; 4098];
    let mut store = Store { words, count: 2 };
    let mut builder = Builder {
        store: &mut store,
        memo: &mut memo,
        image: &mut image,
    };
    sum(program, &rules, &mut builder, &places, atom).ok()
}

#[test]
fn literals_in_order(rt: HostRuntime) {
    let mut words = WORDS;
    assert!(rt; store::is_sound(&words[..2], 32));
    // "not 1" comes first and is node 4, "not 0" is node 5, and both together node 6
    assert_eq!(rt; conjoined(&mut words, &[3, 1]), Some(6));
    assert_eq!(rt; words[2], 67117056);
    assert_eq!(rt; words[3], 8192);
    assert_eq!(rt; words[4], 32768);
}

#[test]
fn rules_in_file_order(rt: HostRuntime) {
    let mut words = WORDS;
    assert!(rt; store::is_sound(&words[..2], 32));
    // the first body is node 4, the second node 5, as above, and one or the other node 6
    assert_eq!(rt; summed(&mut words, &FILE, 2), Some(6));
    assert_eq!(rt; words[2], 67117056);
    assert_eq!(rt; words[3], 8192);
    assert_eq!(rt; words[4], 8196);
}
