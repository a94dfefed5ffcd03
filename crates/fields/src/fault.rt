ghost use Rattle.std.specs.Prelude.{◌≡◌};

// Why a field is refused.
#[derive(Clone, Copy, PartialEq, Eq, Debug)]
pub enum Fault {
    // The bytes are no such field's value: 43.
    NotInForm,
    // The buffer ends before the field would: 41.
    NoRoom,
}

impl From<digits::NoRoom> for Fault {
    ghost use Rattle.fields.specs.declared.fault.Fault.{Fault};

    ghost from_gives = { λ _ fault. fault ≡ Fault.NoRoom };

    fn from(_room: digits::NoRoom) -> Fault {
        Fault::NoRoom
    }
}
