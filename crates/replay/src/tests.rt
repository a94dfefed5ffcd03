// A packet over 49,152 bytes, handed over in pieces.
use crate::cutter::{Cut, Cutter};
use crate::events;
use packet::FormFault;
use std::test::Fail;

fn ended(cutter: &mut Cutter, piece: &[u8]) -> Option<Cut> {
    cutter.take(piece).ok().flatten()
}

fn is_too_long(cutter: &Cutter) -> bool {
    matches!(events::outcome(cutter), Err(FormFault::TooLong))
}

#[test]
fn too_long(rt: HostRuntime) -> Result<(), Fail> {
    let mut cutter = Cutter::new();
    let piece = [b'H'; 16_384];
    assert!(rt; ended(&mut cutter, &piece).is_none());
    assert!(rt; ended(&mut cutter, &piece).is_none());
    assert!(rt; ended(&mut cutter, &piece).is_none());
    let cut = ended(&mut cutter, b"\nH\n").ok_or("no packet")?;
    assert!(rt; cut.place == 0 && cut.taken == 1);
    assert!(rt; is_too_long(&cutter));
    let cut = ended(&mut cutter, b"H\n").ok_or("no packet")?;
    assert!(rt; cut.place == 49_153 && cut.taken == 2);
    assert!(rt; events::outcome(&cutter).is_ok());
    Ok(())
}
