// What a query answers: a refusal before the walk, or what the walk came to. The document's number of each.
ghost use Rattle.std.specs.Prelude.{◌≡◌};
ghost use Rattle.sheet.specs.Enums.{number_of};
ghost use Rattle.search.specs.Search.{code_of};
ghost use Rattle.walk.specs.Carried.{answer_of};

use walk::candidates::Ending;

/// Why there is no walk: the sheet's own refusal, a question that is no literal, or a witness buffer under n bytes.
#[derive(Clone, Copy, Debug, PartialEq, Eq)]
pub enum Refusal {
    Sheet(sheet::Refusal),
    NoLiteral,
    ShortWitness,
}

impl From<sheet::Refusal> for Refusal {
    ghost use Rattle.query.specs.declared.reply.Refusal.TheVariants.{Sheet};

    ghost from_gives = { λ refusal r. r ≡ Sheet refusal };

    fn from(refusal: sheet::Refusal) -> Refusal {
        Refusal::Sheet(refusal)
    }
}

impl From<Refusal> for u8 {
    ghost use Rattle.query.specs.Numbers.{refusal_number};

    ghost from_gives = { λ refusal n. n ≡ refusal_number refusal };

    fn from(refusal: Refusal) -> u8 {
        match refusal {
            Refusal::Sheet(refusal) => refusal.into(),
            Refusal::NoLiteral => 16,
            Refusal::ShortWitness => 17,
        }
    }
}

/// What a walk came to: an answer, or that it was cut off.
#[derive(Clone, Copy, Debug, PartialEq, Eq)]
pub enum Verdict {
    Yes = 1,
    No = 2,
    OutOfSteps = 18,
    OutOfPlaces = 19,
}

impl From<Option<Ending>> for Verdict {
    ghost use Rattle.query.specs.Numbers.{verdict_number};

    ghost from_gives = { λ ending verdict. verdict_number verdict ≡ code_of (answer_of ending) };

    fn from(ending: Option<Ending>) -> Verdict {
        match ending {
            Some(Ending::Affirmed(_)) => Verdict::Yes,
            None => Verdict::No,
            Some(Ending::Exhausted) => Verdict::OutOfSteps,
            Some(Ending::Full) => Verdict::OutOfPlaces,
        }
    }
}

impl From<Verdict> for u8 {
    ghost use Rattle.query.specs.Numbers.{verdict_number};

    ghost from_gives = { λ verdict n. n ≡ verdict_number verdict };

    fn from(verdict: Verdict) -> u8 {
        verdict as u8
    }
}

/// What a walk came to, and its counts.
// The counts are those of `Walked`, which has its own end: a struct for the three of them in both would be one name more at each count.
#[derive(Clone, Copy, Debug, PartialEq, Eq)]
pub struct Reply {
    pub verdict: Verdict,
    pub steps: u64,
    pub tests: u64,
    pub stored: usize,
}
