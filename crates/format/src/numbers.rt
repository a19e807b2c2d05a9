// Document 01's number and detail for each refusal of a file.
use crate::Refusal;

impl Refusal {
    ghost use Rattle.std.specs.Prelude.{◌≡◌};
    ghost use Rattle.format.specs.Refusals.{number as number_of, detail as detail_of};

    pub fn number(self) -> u32
        ensures { result ≡ number_of self }
    {
        match self {
            Refusal::Length => 1,
            Refusal::Contents => 2,
            Refusal::Counts => 3,
            Refusal::Offset => 4,
            Refusal::Weightless(_) => 5,
            Refusal::Total => 6,
            Refusal::Layerless(_) => 7,
            Refusal::Broken(_) => 8,
            Refusal::LongBody(_) => 9,
            Refusal::Unknown(_) => 10,
            Refusal::Layers(_) => 11,
        }
    }

    // The fact, atom or rule that is named; 0 where none is.
    pub fn detail(self) -> u32
        ensures { result ≡ detail_of self }
    {
        match self {
            Refusal::Weightless(at)
            | Refusal::Layerless(at)
            | Refusal::Broken(at)
            | Refusal::LongBody(at)
            | Refusal::Unknown(at)
            | Refusal::Layers(at) => at,
            _ => 0,
        }
    }
}
