// 7 to 11: the layers and the rules of a file.
use crate::Refusal;
use crate::bytes::{u8_at, u16_at};
use crate::program::Program;
use crate::tables::Tables;

// What stands at a rule's place, where it passes 8 to 10 up to its head: its head's layer, and its end.
#[derive(Clone, Copy)]
pub(crate) struct Head {
    pub top: usize,
    pub end: usize,
}

impl Tables<'_> {
    ghost use Rattle.std.specs.Prelude.{◌+◌, ◌<◌, ◌≤◌, length};
    ghost use Rattle.format.specs.File.{F, D, R};
    ghost use Rattle.format.specs.Refusals.{layer_test, rules_tests, each};
    ghost use Rattle.format.specs.Checked.{Answers, LayerOf, HeaderRead, LiteralRead};

    // 7: the first derived atom with layer byte 0.
    pub(crate) fn layerless(self) -> Result<(), Refusal>
        ensures { Answers (each (D self.entry.program.file.now)
            (layer_test self.entry.program.file.now)) result }
    {
        let facts = self.program.facts;
        for i in 0..self.program.derived {
            if u8_at(self.program.file, 28 + 4 * facts + i) == 0 {
                return Err(Refusal::Layerless((facts + i) as u32));
            }
        }
        Ok(())
    }

    // The layer of an atom. A fact reads a byte too, times 0: a branch here would be mispredicted on every other literal.
    fn layer(self, atom: usize) -> usize
        requires { atom < F self.program.file.now + D self.program.file.now }
        ensures { LayerOf self.entry.program.file.now atom result }
    {
        let facts = self.program.facts;
        let is_derived = usize::from(facts <= atom);
        u8_at(self.program.file, 28 + 3 * facts + atom) * is_derived
    }

    // 8 to 10 of a rule up to its head: "header (8), length (9), body present (8), head (10)".
    fn header(self, rule: usize, at: usize) -> Result<Head, Refusal>
        requires below { rule < R self.program.file.now }
        requires inside { at ≤ length self.program.file.now }
        ensures { HeaderRead self.entry.program.file.now rule at result }
    {
        let Program { file, facts, .. } = self.program;
        if file.len() - at < 4 {
            return Err(Refusal::Broken(rule as u32)); // no whole header
        }
        let head = u16_at(file, at);
        let len = u16_at(file, at + 2);
        let end = at + 4 + 2 * len;
        if 16 < len {
            return Err(Refusal::LongBody(rule as u32));
        }
        if file.len() < end {
            return Err(Refusal::Broken(rule as u32)); // no whole body
        }
        let atoms = self.program.atoms();
        if head < facts || atoms <= head {
            return Err(Refusal::Unknown(rule as u32));
        }
        let top = self.layer(head);
        Ok(Head { top, end })
    }

    // 10 and 11 of a literal of a rule whose head is of layer `top`. `&` spares a branch for `layered`.
    fn literal(self, rule: usize, top: usize, lit: usize, layered: bool) -> Result<(), Refusal>
        requires { rule < R self.program.file.now }
        ensures { LiteralRead layered self.entry.program.file.now rule top lit result }
    {
        let atom = lit / 2;
        if self.program.atoms() <= atom {
            return Err(Refusal::Unknown(rule as u32));
        }
        if layered & (top < self.layer(atom) + lit % 2) {
            return Err(Refusal::Layers(rule as u32));
        }
        Ok(())
    }

    // 8 to 11: the rules in file order, each body's literals in order, and no byte after the last.
    pub(crate) fn misruled(self, layered: bool) -> Result<(), Refusal>
        ensures { Answers (rules_tests layered self.entry.program.file.now) result }
    {
        let Program {
            file,
            facts,
            derived,
            rules,
            ..
        } = self.program;
        let mut at = 28 + 4 * facts + derived;
        for j in 0..rules {
            let Head { top, end } = self.header(j, at)?;
            let body = &file[at + 4..end];
            for i in 0..body.len() / 2 {
                self.literal(j, top, u16_at(body, 2 * i), layered)?;
            }
            at = end;
        }
        if at < file.len() {
            return Err(Refusal::Broken(rules as u32));
        }
        Ok(())
    }
}
