// Layers raised pass after pass until nothing changes; with no chain of rules that takes at most as many passes as there are derived atoms
// (`no-chain-still`).
ghost use Rattle.std.specs.Prelude.{◌≡◌, position};
ghost use Rattle.layering.specs.Calls.{SettleAsked, Settled, WriteAsked};
ghost use Rattle.layering.specs.Told.{Done};
ghost use Rattle.layering.specs.Inner.{body_at, BodyAsked, PassAsked, PassDone};
ghost use Rattle.layering.specs.Rising.{asks, high_layer};

use crate::Unlayered;
use format::bytes::u16_at;
use format::program::Program;

// What a body asks of its head's layer.
fn asked(program: Program, layers: &[u32], at: usize, len: usize) -> u32
    requires { BodyAsked program.file.now layers.now program.facts at len }
    ensures { result ≡ asks program.entry.facts layers.now (body_at program.entry.file.now at len) }
{
    let mut most = 0;
    for i in 0..len {
        let lit = u16_at(program.file, at + 2 * i);
        let mut layer = (lit % 2) as u32;
        if program.facts <= lit / 2 {
            layer += layers[lit / 2 - program.facts];
        }
        if most < layer {
            most = layer;
        }
    }
    most
}

// One pass over the rules; whether it changed a layer.
fn pass(program: Program, layers: &mut [u32]) -> bool
    requires { PassAsked program.file.now layers.old }
    ensures { PassDone program.entry.file.now layers.old layers.new result }
{
    let mut changed = false;
    let mut at = format::walk::first(program.file);
    for _ in 0..program.rules {
        let head = u16_at(program.file, at) - program.facts;
        let len = u16_at(program.file, at + 2);
        let most = asked(program, layers, at + 4, len);
        if layers[head] < most {
            layers[head] = most;
            changed = true;
        }
        at = at + 4 + 2 * len;
    }
    changed
}

// Passes until one changes nothing, one more than there are derived atoms at most; whether one changed nothing.
pub fn settle(program: Program, layers: &mut [u32]) -> bool
    requires { SettleAsked program.file.now layers.old }
    ensures { Settled program.entry.file.now layers.new result }
{
    for _ in 0..=program.derived {
        if !pass(program, layers) {
            return true;
        }
    }
    false
}

// The first place whose layer does not fit in a byte.
fn too_high(layers: &[u32]) -> Option<usize>
    ensures { result ≡ position high_layer layers.now }
{
    layers.iter().position(|&layer| 255 < layer)
}

// Writes the layers, if all fit in a byte.
pub fn written(program: Program, layers: &[u32], out: &mut [u8]) -> Result<(), Unlayered>
    requires { WriteAsked program.file.now layers.now out.old }
    ensures { Done program.entry.file.now out.old out.new result }
{
    if let Some(i) = too_high(layers) {
        return Err(Unlayered::High((program.facts + i) as u32));
    }
    for (k, &layer) in layers.iter().enumerate() {
        out[k] = layer as u8;
    }
    Ok(())
}
