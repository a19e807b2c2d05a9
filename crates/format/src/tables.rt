// A program that has passed 1 to 4.
ghost use Rattle.format.specs.Counted.{Framed};

use crate::program::Program;

// Its facts, its layers and the place of its rules lie within the file.
#[derive(Clone, Copy)]
pub(crate) struct Tables<'a> {
    pub program: Program<'a>,
    ghost framed: { Framed program.file.now },
}
