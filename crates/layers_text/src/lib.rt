// The text that the program `layers` prints for a file: any bytes at all (specs/LayersText.antt).
#![tactic(auto)]

ghost use Rattle.std.specs.Prelude.{◌≤◌, length};
ghost use Rattle.text.specs.Writes.{Writes};
ghost use Rattle.layers_text.specs.LayersText.{layer_lines, rule_lines, chain_in, LayersPrinted};
ghost use Rattle.layers_text.specs.Asked.{LayerLinesAsked, RuleLinesAsked, AnswerAsked, WritesLayers};

use format::bytes::u16_at;
use layering::{Unlayered, Untold};
use text::Writer;

// The derived atoms' lines; the first of them is atom number `facts`.
fn layer_lines(layers: &[u8], facts: usize, writer: &mut Writer)
    requires { LayerLinesAsked layers.now facts writer.old }
    ensures { Writes writer.old writer.new (layer_lines facts layers.now) }
{
    for (i, &layer) in layers.iter().enumerate() {
        writer.pair((facts + i) as u64, u64::from(layer));
    }
}

// The rules of a chain, whose count stands before them.
fn rule_lines(chain: &[u8], writer: &mut Writer)
    requires { RuleLinesAsked chain.now writer.old }
    ensures { Writes writer.old writer.new (rule_lines (chain_in chain.now)) }
{
    for i in 0..u16_at(chain, 0) {
        writer.number(u16_at(chain, 2 + 2 * i) as u64);
        writer.put(b"\n");
    }
}

// The text of what was found, with room for what is written.
fn answer(file: &[u8], room: &mut [u8], writer: &mut Writer)
    requires { AnswerAsked room.old writer.old }
    ensures { WritesLayers file.now writer.old writer.new }
{
    match layering::tell(file, room) {
        Ok(length) => layer_lines(&room[..length as usize], u16_at(file, 6), writer),
        Err(why) => {
            writer.refused(why.number(), why.detail());
            // An arm for each refusal: of the other way of an `if let` nothing is known, and the proof did not close.
            match why {
                Untold::Unlayered(Unlayered::Chain(_)) => rule_lines(
                    &room[..why.length() as usize],
                    writer,
                ),
                Untold::Unlayered(Unlayered::High(_)) => {}
                Untold::Refused(_) => {}
                Untold::Short => {}
            }
        }
    }
}

// Writes the file's text at the output's start and answers its length.
pub fn text(file: &[u8], out: &mut [u8]) -> usize
    requires { 16384 ≤ length out.old }
    ensures { LayersPrinted file.now out.old out.new result }
{
    let mut room = [0u8; 2048];
    let mut writer = Writer { out, at: 0 };
    answer(file, &mut room, &mut writer);
    writer.at
}
