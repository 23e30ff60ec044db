// Why a text is not taken.
ghost use Rattle.compiler.specs.Faults.{refusal_of};
ghost use Rattle.compiler.specs.declared.fault.ProgramFault.TheVariants.{Unread};
ghost use Rattle.std.specs.Prelude.{◌≡◌};

use reader::fault::FormFault;
use refusal::Refusal;

// The text is not read, or its form is too heavy.
#[derive(Clone, Copy, Debug)]
pub enum ProgramFault {
    Unread(FormFault),
    TooHeavy,
}

// Written and not derived: only a written impl can have `from_gives`, by which a `?` tells which fault it has made.
impl From<FormFault> for ProgramFault {
    ghost from_gives = { λ e r. r ≡ Unread e };

    fn from(e: FormFault) -> ProgramFault {
        ProgramFault::Unread(e)
    }
}

// What the fault is called outside: the refusal has the number and the place. Written by hand, as above.
impl From<ProgramFault> for Refusal {
    ghost from_gives = { λ e r. r ≡ refusal_of e };

    fn from(e: ProgramFault) -> Refusal {
        match e {
            ProgramFault::Unread(FormFault::TooLong) => Refusal::TextTooLong,
            ProgramFault::Unread(FormFault::NoToken(token)) => Refusal::NoToken { at: token.at },
            ProgramFault::Unread(FormFault::Unexpected { at }) => Refusal::UnexpectedToken { at },
            ProgramFault::Unread(FormFault::BadNumber { at }) => Refusal::BadNumber { at },
            ProgramFault::Unread(FormFault::TooDeep { at }) => Refusal::TooDeep { at },
            ProgramFault::TooHeavy => Refusal::TooHeavy,
        }
    }
}
