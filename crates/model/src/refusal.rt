// Why a call is refused: by the first question whose answer is no (S4).
ghost use Rattle.std.specs.Prelude.{◌≡◌};
ghost use Rattle.model.specs.Refusals.{number_of};

use std::marker::Model;

// The questions of S4, in the order in which they are put.
#[derive(Clone, Copy, Debug, PartialEq, Eq)]
pub enum Question {
    Room,
    Size,
    Head,
    Fields,
    Count,
    Ranges,
    Findings,
    Circle,
    Values,
    Marks,
    Budget,
}

// A refusal by a question. Clauses see the question's number.
#[derive(Clone, Copy)]
pub struct Refusal {
    question: Question,
}

impl Model for Refusal {
    ghost use Rattle.std.specs.Prelude.{ℕ};

    ghost Value = { ℕ };

    ghost use Rattle.model.specs.Refusals.{number_of, question_of};

    ghost view = { λ r. number_of r.question };

    ghost inverse = { λ n. record { question = question_of n } };
}

impl Question {
    // Its number.
    pub fn number(self) -> u32
        ensures { result ≡ number_of self }
    {
        match self {
            Question::Room => 1,
            Question::Size => 2,
            Question::Head => 3,
            Question::Fields => 4,
            Question::Count => 10,
            Question::Ranges => 5,
            Question::Findings => 6,
            Question::Circle => 11,
            Question::Values => 7,
            Question::Marks => 8,
            Question::Budget => 9,
        }
    }
}

impl Refusal {
    // The number of the question that is answered no.
    pub fn number(self) -> u32
        ensures { result ≡ self }
    {
        self.question.number()
    }
}

impl From<Question> for Refusal {
    ghost from_gives = { λ q r. r ≡ number_of q };

    fn from(question: Question) -> Refusal {
        Refusal { question }
    }
}
