// Why a program has no answer, and the lines that say so.
ghost use Rattle.std.specs.Prelude.{◌≡◌};
ghost use Rattle.printed.specs.declared.no_answer.NoAnswer.TheVariants.{Input, Refused, Unwritten};

use program_input::read::WrongInput;
use refusals::refusal::Refusal;
use std::{fmt, io};

#[derive(Clone, Copy)]
pub enum NoAnswer {
    Input(WrongInput),
    Refused(Refusal),
    // A write failed.
    Unwritten(io::Error),
}

impl From<WrongInput> for NoAnswer {
    ghost from_gives = { λ value no_answer. no_answer ≡ Input value };

    fn from(value: WrongInput) -> NoAnswer {
        NoAnswer::Input(value)
    }
}

impl From<Refusal> for NoAnswer {
    ghost from_gives = { λ value no_answer. no_answer ≡ Refused value };

    fn from(value: Refusal) -> NoAnswer {
        NoAnswer::Refused(value)
    }
}

impl From<io::Error> for NoAnswer {
    ghost from_gives = { λ value no_answer. no_answer ≡ Unwritten value };

    fn from(value: io::Error) -> NoAnswer {
        NoAnswer::Unwritten(value)
    }
}

impl fmt::Display for NoAnswer {
    ghost use Rattle.printed.specs.NoAnswer.{text_of};

    ghost output = { text_of };

    fn fmt<W: fmt::Write>(&self, f: &mut fmt::Formatter<W>) -> fmt::Result {
        match self {
            NoAnswer::Input(_) => write!(f, "input"),
            NoAnswer::Refused(refusal) => {
                let number = refusal.rule.number();
                let place = refusal.place;
                write!(f, "refused {number} at {place}")
            }
            NoAnswer::Unwritten(error) => write!(f, "{error}"),
        }
    }
}

// Who prints an answer or this matches for himself: each answer is another text, which one function for all would
// take as a closure.
pub fn print_refusal(rt: &impl Print, refusal: Refusal) -> io::Result<()> {
    println!(rt; "{}", NoAnswer::Refused(refusal))
}

// Says why there is no answer: on standard error that a write failed, and else on standard output. No clause: none can
// speak of what is printed.
pub fn tell(rt: &(impl Print + Eprint), no_answer: NoAnswer, unwritten: &str) {
    let told = match no_answer {
        NoAnswer::Unwritten(error) => Err(error),
        line => println!(rt; "{line}"),
    };
    if told.is_err() {
        let _ = eprintln!(rt; "{unwritten}");
    }
}
