// 2 to 4: the contents of a file.
ghost use Rattle.std.specs.Prelude.{◌≤◌, length};
ghost use Rattle.format.specs.Refusals.{contents_tests, counts_tests, offset_tests};
ghost use Rattle.format.specs.Checked.{Answers};

use crate::Refusal;
use crate::bytes::{u16_at, u32_at};
use crate::program::Program;

// 2: layout, entry count and kinds.
pub(crate) fn contents(file: &[u8]) -> Result<(), Refusal>
    requires { 28 ≤ length file.now }
    ensures { Answers (contents_tests file.now) result }
{
    let layout = u16_at(file, 0);
    let entries = u16_at(file, 2);
    let (first, second, third) = (u16_at(file, 4), u16_at(file, 12), u16_at(file, 20));
    if layout != 1 || entries != 3 || first != 1 || second != 2 || third != 3 {
        return Err(Refusal::Contents);
    }
    Ok(())
}

// 3: F, D and R.
pub(crate) fn counts(program: Program) -> Result<(), Refusal>
    ensures { Answers (counts_tests program.entry.file.now) result }
{
    if 32 < program.facts || 512 < program.derived || 2048 < program.rules {
        return Err(Refusal::Counts);
    }
    Ok(())
}

// 4: the three offsets.
pub(crate) fn offsets(program: Program) -> Result<(), Refusal>
    requires { 28 ≤ length program.file.now }
    ensures { Answers (offset_tests program.entry.file.now) result }
{
    let layers = 28 + 4 * program.facts;
    let rules = layers + program.derived;
    let file = program.file;
    let (first, second, third) = (u32_at(file, 8), u32_at(file, 16), u32_at(file, 24));
    if first != 28 || second != layers || third != rules || file.len() < rules {
        return Err(Refusal::Offset);
    }
    Ok(())
}
