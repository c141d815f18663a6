// Why something is refused, and where: the reasons of every check, each by its number, and the place.
#![tactic(auto)]

ghost use Rattle.std.specs.Prelude.{◌≡◌};
ghost use Rattle.refusals.specs.Numbers.{number_of, refusal_of};

// Why a plan, a schedule, a log, a bound or a lent area is refused, each by its number.
#[derive(Clone, Copy, Debug, PartialEq, Eq)]
pub enum Reason {
    PlanLength = 1,
    Header = 2,
    Procedure = 3,
    Term = 4,
    Sort = 5,
    Naming = 6,
    Slot = 7,
    ScheduleLength = 8,
    Pick = 9,
    LogArea = 10,
    LogLength = 11,
    Record = 12,
    PlanArea = 13,
    Version = 14,
    LeftOut = 15,
    NoRace = 16,
    ScheduleArea = 17,
    Bound = 18,
    NotListed = 19,
    BoundArea = 20,
    Cycle = 21,
    While = 22,
    Total = 23,
    FileArea = 24,
    TextArea = 25,
    ReadArea = 26,
    PictureArea = 27,
}

// A refusal: its reason, and the place, the lowest that is wrong, or 0.
#[derive(Clone, Copy, Debug, PartialEq, Eq)]
pub struct Refusal {
    pub reason: Reason,
    pub place: usize,
}

impl Reason {
    // Its number.
    pub fn number(self) -> usize
        ensures { result ≡ number_of self }
    {
        self as usize
    }

    // The refusal for this reason at this place.
    pub fn at(self, place: usize) -> Refusal
        ensures { result ≡ record { reason = self; place = place } }
    {
        Refusal {
            reason: self,
            place,
        }
    }
}

impl Refusal {
    // Its reason's number.
    pub fn number(self) -> usize
        ensures { result ≡ (refusal_of self).number }
    {
        self.reason.number()
    }
}
