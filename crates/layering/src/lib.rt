// Layers worked out from the rules alone (document 02, L4): the smallest, or a chain of rules that leaves none.
#![tactic(auto)]

mod rising;

ghost use Rattle.std.specs.Prelude.{◌≡◌, ◌≤◌, length};
ghost use Rattle.format.specs.Passed.{Formed};
ghost use Rattle.layering.specs.Told.{Done, LayersIs, told_of, told_as};
ghost use Rattle.layering.specs.declared.Untold.TheVariants.{Refused as refused, Unlayered as unlayered};

use chains::Lowest;
use format::Refusal;
use format::program::Program;

// What stands against layers: the lowest atom whose layer is over 255, or the lowest on a chain of rules, one of which was written.
#[derive(Clone, Copy)]
pub enum Unlayered {
    High(u32),
    Chain(Lowest),
}

// The layers of a file that has passed its check but for 11 are written, or what stands against them is told.
pub fn layers(program: Program, out: &mut [u8]) -> Result<(), Unlayered>
    requires { Formed program.file.now × (2048 ≤ length out.old) }
    ensures { Done program.entry.file.now out.old out.new result }
{
    let mut room = [1u32; 512];
    let layers = &mut room[..program.derived];
    if !rising::settle(program, layers) {
        return Err(Unlayered::Chain(chains::chain::find(program, out)));
    }
    rising::written(program, layers, out)
}

// Why the call refuses: the output is under 2,048 bytes, or the file's check or its layers are refused.
#[derive(Clone, Copy)]
pub enum Untold {
    Short,
    Refused(Refusal),
    Unlayered(Unlayered),
}

impl From<Refusal> for Untold {
    ghost from_gives = { λ w e. e ≡ refused w };

    fn from(why: Refusal) -> Untold {
        Untold::Refused(why)
    }
}

impl From<Unlayered> for Untold {
    ghost from_gives = { λ u e. e ≡ unlayered u };

    fn from(why: Unlayered) -> Untold {
        Untold::Unlayered(why)
    }
}

impl Untold {
    // The document's number.
    pub fn number(self) -> u32
        ensures { result ≡ (told_as self).refusal }
    {
        match self {
            Untold::Short => 21,
            Untold::Refused(why) => why.number(),
            Untold::Unlayered(Unlayered::High(_)) => 37,
            Untold::Unlayered(Unlayered::Chain(_)) => 24,
        }
    }

    pub fn detail(self) -> u32
        ensures { result ≡ (told_as self).detail }
    {
        match self {
            Untold::Short => 0,
            Untold::Refused(why) => why.detail(),
            Untold::Unlayered(Unlayered::High(atom)) => atom,
            Untold::Unlayered(Unlayered::Chain(lowest)) => lowest.atom,
        }
    }

    // How many bytes were written: a chain's.
    pub fn length(self) -> u64
        ensures { result ≡ (told_as self).length }
    {
        match self {
            Untold::Unlayered(Unlayered::Chain(lowest)) => 2 + 2 * u64::from(lowest.count),
            _ => 0,
        }
    }
}

// The layers of any file, and how many bytes they are; with the refusals of L4 in its order.
pub fn tell(file: &[u8], out: &mut [u8]) -> Result<u32, Untold>
    ensures { LayersIs file.now out.old out.new (told_of result) }
{
    if out.len() < 2048 {
        return Err(Untold::Short);
    }
    let accepted = format::validate::check_by(file, false)?;
    layers(Program::of(file), out)?;
    Ok(accepted.derived)
}
