// Why a call is refused, and C's numbers for it (specs/Numbers.antt).
ghost use Rattle.std.specs.Prelude.{◌≡◌};
ghost use Rattle.calls.specs.Numbers.{number_of, detail_of, number_in, detail_in};
ghost use Rattle.calls.specs.Causes.{unclosed, ungiven};
ghost use Rattle.calls.specs.declared.refusal.Refusal.TheVariants as no;

use questions::given::Ungiven;
use state::Unclosed;

// The refusals of include/reach.h, but for those that reach_layers alone has.
#[derive(Clone, Copy)]
pub enum Refusal {
    File(format::Refusal),
    Full,
    NoAtom,
    NotInWork,
    Unsettled(u32),
    Finished,
    Unfinished,
    Evidence,
    Numbers,
    NoWeight,
    Output,
    Unfit,
}

impl Refusal {
    pub fn number(self) -> u32
        ensures { result ≡ number_of self }
    {
        match self {
            Refusal::File(why) => why.number(),
            Refusal::Full => 12,
            Refusal::NoAtom => 13,
            Refusal::NotInWork => 14,
            Refusal::Unsettled(_) => 15,
            Refusal::Finished => 16,
            Refusal::Unfinished => 17,
            Refusal::Evidence => 18,
            Refusal::Numbers => 19,
            Refusal::NoWeight => 20,
            Refusal::Output => 21,
            Refusal::Unfit => 36,
        }
    }

    pub fn detail(self) -> u32
        ensures { result ≡ detail_of self }
    {
        match self {
            Refusal::File(why) => why.detail(),
            Refusal::Unsettled(atom) => atom,
            _ => 0,
        }
    }
}

impl From<format::Refusal> for Refusal {
    ghost from_gives = { λ w r. r ≡ no.File w };

    fn from(why: format::Refusal) -> Refusal {
        Refusal::File(why)
    }
}

impl From<store::Full> for Refusal {
    ghost from_gives = { λ _ r. r ≡ no.Full };

    fn from(_: store::Full) -> Refusal {
        Refusal::Full // no room for the facts, or for a node
    }
}

impl From<Unclosed> for Refusal {
    ghost from_gives = { λ w r. r ≡ unclosed w };

    fn from(why: Unclosed) -> Refusal {
        match why {
            Unclosed::Unsettled(a) => Refusal::Unsettled(a),
            Unclosed::Full => Refusal::Full,
        }
    }
}

impl From<Ungiven> for Refusal {
    ghost from_gives = { λ w r. r ≡ ungiven w };

    fn from(why: Ungiven) -> Refusal {
        match why {
            Ungiven::NoWeight => Refusal::NoWeight,
            Ungiven::Full => Refusal::Full,
        }
    }
}

// The number and the detail that C gets with a result: those of its refusal, or 0 and 0.
pub fn numbers<T>(answer: &Result<T, Refusal>) -> (u32, u32)
    ensures { result ≡ record { 0 = number_in answer.now; 1 = detail_in answer.now } }
{
    match answer {
        Ok(_) => (0, 0),
        Err(why) => (why.number(), why.detail()),
    }
}
