// Why the call refuses a script. Document 02, No. 4: "Refusals: 1 for a script above 60,000 bytes and 2 for a shorter loan or tables, both at place 0; 14 .. 15 .. 16".
// Rests on script_shelf for the last three.

ghost use Rattle.std.specs.Prelude.{◌≡◌};
ghost use Rattle.script_call.specs.Parts.{reason_number, lent_of};

use script_shelf::Fault;

#[derive(Clone, Copy, Debug, PartialEq, Eq)]
pub enum Reason {
    ScriptTooLong,
    LoanTooShort,
    Script(Fault),
}

// The number that document 02 gives it.
impl From<Reason> for u8 {
    ghost from_gives = { λ reason number. number ≡ reason_number reason };

    fn from(reason: Reason) -> u8 {
        match reason {
            Reason::ScriptTooLong => 1,
            Reason::LoanTooShort => 2,
            Reason::Script(fault) => u8::from(fault),
        }
    }
}

// A refusal, and the place that it names.
#[derive(Clone, Copy, Debug, PartialEq, Eq)]
pub struct Refusal {
    pub reason: Reason,
    pub place: usize,
}

// Whether the lengths were right, without which nothing lent changes.
pub fn is_lent(answer: &Result<usize, Refusal>) -> bool
    ensures { result ≡ lent_of answer.now }
{
    match answer {
        Ok(_) => true,
        Err(refusal) => match refusal.reason {
            Reason::Script(_) => true,
            Reason::ScriptTooLong | Reason::LoanTooShort => false,
        },
    }
}
