ghost use Rattle.std.specs.Prelude.{◌≡◌};
ghost use Rattle.schedule.specs.declared.refusals.Refused.{Refused};
ghost use Rattle.script.specs.declared.refusals.Refusal.{Refusal};
ghost use Rattle.book_check.specs.declared.offences.Offence.{Offence};

use book_check::Offence;
use lab_runs::Ran;
use schedule::Refused;
use script::Refusal;

/// How a call ended.
#[derive(Clone, Copy, PartialEq, Eq)]
pub enum Status {
    /// None of the others: the output was written.
    Done,
    /// The script is refused, at a line and for a cause.
    Script(Refusal),
    /// The schedule is refused, at a line and for a cause.
    Schedule(Refused),
    /// A line of a listing is at fault, and breaks a rule.
    Refused(Offence),
    /// There were more bytes than the input may have.
    TooLong,
    /// The words are no form of the program.
    Usage,
    /// A read failed.
    ReadFault,
    /// A write of the output failed.
    WriteFault,
    /// There wasn't enough memory.
    Memory,
}

impl Status {
    /// The number that the program ends with. (Source: own.)
    pub fn number(self) -> u8
        ensures done { self ≡ Status.Done → result ≡ 0 }
        ensures script { (r : Refusal) → self ≡ Status.Script r → result ≡ 1 }
        ensures schedule { (r : Refused) → self ≡ Status.Schedule r → result ≡ 1 }
        ensures too_long { self ≡ Status.TooLong → result ≡ 1 }
        ensures usage { self ≡ Status.Usage → result ≡ 2 }
        ensures read_fault { self ≡ Status.ReadFault → result ≡ 3 }
        ensures write_fault { self ≡ Status.WriteFault → result ≡ 4 }
        ensures memory { self ≡ Status.Memory → result ≡ 5 }
        ensures refused { (o : Offence) → self ≡ Status.Refused o → result ≡ 6 }
    {
        match self {
            Status::Done => 0,
            Status::Script(_) | Status::Schedule(_) | Status::TooLong => 1,
            Status::Usage => 2,
            Status::ReadFault => 3,
            Status::WriteFault => 4,
            Status::Memory => 5,
            Status::Refused(_) => 6,
        }
    }
}

/// What a call leaves (own).
#[derive(Drop)]
pub struct Finished {
    /// How it ended.
    pub status: Status,
    /// The machine that followed the schedule, shut down, with its steps; `None` where there is none.
    pub ran: Option<Ran>,
}
