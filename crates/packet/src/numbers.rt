// What the fault log shows of a fault.
ghost use Rattle.std.specs.Prelude.{◌≡◌};
ghost use Rattle.packet.specs.Faults.{number, offset};

use crate::packets::FormFault;

impl FormFault {
    // Its number in the table of refusals. No `From` for a number: which number it is, is for the name to say.
    pub fn number(&self) -> u8
        ensures { result ≡ number self.now }
    {
        match self {
            FormFault::TooLong => 11,
            FormFault::Unprintable(_) => 12,
            FormFault::NoLetter => 13,
            FormFault::WrongLength => 15,
            FormFault::BadField(_) => 16,
        }
    }

    // The packet offset that it names.
    pub fn offset(&self) -> usize
        ensures { result ≡ offset self.now }
    {
        match self {
            FormFault::Unprintable(at) | FormFault::BadField(at) => *at,
            FormFault::TooLong | FormFault::NoLetter | FormFault::WrongLength => 0,
        }
    }
}
