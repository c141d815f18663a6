// What a refusal has, whatever its type: its number and its place. What hands on any answer takes any such type, and so any number.
#![tactic(auto)]

ghost use Rattle.std.specs.Prelude.{◌≡◌};
ghost use Rattle.format.specs.Refusal as papers;
ghost use Rattle.refusals.specs.Numbers.{refusal_of};

use refusals::Refusal;

// What is told of why something is refused: a number and a place.
pub trait Numbered: Copy {
    ghost told: { Self → papers.Refusal };

    // Its number.
    fn number(self) -> usize
        ensures { result ≡ (told self).number };

    // Its place.
    fn place(self) -> usize
        ensures { result ≡ (told self).place };
}

// A refusal by its reason: that reason's number, from 1 to 27.
impl Numbered for Refusal {
    ghost told = { refusal_of };

    fn number(self) -> usize {
        self.reason.number()
    }

    fn place(self) -> usize {
        self.place
    }
}

// A refusal of any number, also one that no reason has.
#[derive(Clone, Copy, Debug, PartialEq, Eq)]
pub struct NumberAndPlace {
    pub number: usize,
    pub place: usize,
}

impl Numbered for NumberAndPlace {
    ghost told = { λ r. record { number = r.number; place = r.place } };

    fn number(self) -> usize {
        self.number
    }

    fn place(self) -> usize {
        self.place
    }
}
