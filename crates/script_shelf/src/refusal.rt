// Why a script is refused, and where. Document 02, No. 4: "Of 14 to 16 the one at the first token at fault is given, place its first byte". Rests on nothing.

ghost use Rattle.std.specs.Prelude.{◌≡◌};
ghost use Rattle.script_shelf.specs.Refusals.{fault_number};

// "14 outside the subset or ended too soon; 15 for an undeclared or twice declared name or a wrong argument count; 16 above any job limit, the name limit or depth 32".
#[derive(Clone, Copy, Debug, PartialEq, Eq)]
pub enum Fault {
    OutsideSubset,
    AgainstDeclarations,
    AboveLimit,
}

// The number that document 02 gives it.
impl From<Fault> for u8 {
    ghost from_gives = { λ fault number. number ≡ fault_number fault };

    fn from(fault: Fault) -> u8 {
        match fault {
            Fault::OutsideSubset => 14,
            Fault::AgainstDeclarations => 15,
            Fault::AboveLimit => 16,
        }
    }
}

// A refusal: the first fault of the script, and the first byte of the token that it is at (the script's length if that ends too soon).
#[derive(Clone, Copy, Debug, PartialEq, Eq)]
pub struct Refusal {
    pub fault: Fault,
    pub place: usize,
}
