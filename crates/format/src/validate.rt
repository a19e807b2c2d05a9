// The check of a file: the tests of document 01 in its order, of which the first that fails decides.
ghost use Rattle.std.specs.Prelude.{◌≡◌};
ghost use Rattle.format.specs.Refusals.{verdict, verdict_by};

use crate::contents::{contents, counts, offsets};
use crate::program::Program;
use crate::tables::Tables;
use crate::{Accepted, Refusal};

// What loading tests.
#[tactic(auto, unfolding(crate::specs::Refusals::verdict))]
pub fn check(file: &[u8]) -> Result<Accepted, Refusal>
    ensures { result ≡ verdict file.now }
{
    check_by(file, true)
}

// The whole check; 11 is left out where it is not `layered`.
pub fn check_by(file: &[u8], layered: bool) -> Result<Accepted, Refusal>
    ensures { result ≡ verdict_by layered file.now }
{
    if file.len() < 28 || 65536 < file.len() {
        return Err(Refusal::Length);
    }
    contents(file)?;
    let program = Program::of(file);
    counts(program)?;
    offsets(program)?;
    let tables = Tables { program };
    tables.weightless()?;
    let total = tables.product().ok_or(Refusal::Total)?;
    tables.layerless()?;
    tables.misruled(layered)?;
    Ok(Accepted {
        facts: program.facts as u32,
        derived: program.derived as u32,
        rules: program.rules as u32,
        total,
    })
}
