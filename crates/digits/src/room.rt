// Why nothing is written.

// The buffer ends before the field would.
#[derive(Clone, Copy, PartialEq, Eq, Debug)]
pub struct NoRoom;
