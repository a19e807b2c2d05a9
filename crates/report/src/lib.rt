// The text that the reading program prints for a file: any bytes at all (specs/Report.antt).
#![tactic(auto)]

mod answer;
mod lines;
mod weighed;

ghost use Rattle.std.specs.Prelude.{◌≤◌, length};
ghost use Rattle.text.specs.Writes.{HasRoom, Writes};
ghost use Rattle.report.specs.Report.{said, Reported};

use answer::Checked;
use format::program::Program;
use text::Writer;

// The file's text.
fn write(file: &[u8], writer: &mut Writer)
    requires { HasRoom writer.old 16384 }
    ensures { Writes writer.old writer.new (said file.now) }
{
    match format::validate::check(file) {
        Ok(accepted) => {
            let program = Program::of(file);
            let total = accepted.total;
            Checked { program, total }.write(writer)
        }
        Err(why) => writer.refused(why.number(), why.detail()),
    }
}

// Writes the file's text at the output's start and answers its length.
pub fn report(file: &[u8], out: &mut [u8]) -> usize
    requires { 16384 ≤ length out.old }
    ensures { Reported file.now out.old out.new result }
{
    let mut writer = Writer { out, at: 0 };
    write(file, &mut writer);
    writer.at
}
