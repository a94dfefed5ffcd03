// Examples of fields and packets, read and written.
use fields::{
    AmountKind, Decimal, DecimalKind, Fault, Integer, Maker, OrderId, Pair, Price, PriceKind,
    Quantity, QuantityKind, TimeOfDay,
};
use packet::FormFault;
use std::test::Fail;

fn count<K: DecimalKind>(text: &[u8]) -> Option<u64> {
    Decimal::<K>::read(text).ok().map(|decimal| decimal.count())
}

fn integer(text: &[u8]) -> Option<u64> {
    Integer::<4>::read(text).ok().map(|integer| integer.value())
}

fn fault(body: &[u8]) -> Option<FormFault> {
    packet::read(body).err()
}

#[test]
fn numbers(rt: HostRuntime) {
    assert_eq!(rt; count::<PriceKind>(b"1.50200   "), Some(150_200));
    assert_eq!(rt; count::<PriceKind>(b"9999.99999"), Some(999_999_999));
    assert_eq!(rt; count::<PriceKind>(b"0122.0730 "), Some(12_207_300));
    assert_eq!(rt; count::<PriceKind>(b"10000     "), None);
    assert_eq!(rt; count::<PriceKind>(b"1.5 2     "), None);
    assert_eq!(rt; count::<PriceKind>(b" 1.5      "), None);
    assert_eq!(rt; count::<PriceKind>(b"1.502    "), None);
    assert_eq!(rt;
        count::<AmountKind>(b"10000000000000.0"),
        Some(1_000_000_000_000_000)
    );
    assert_eq!(rt; count::<AmountKind>(b"0.005           "), None);
    assert_eq!(rt; count::<QuantityKind>(b"                "), Some(0));
    assert_eq!(rt;
        count::<QuantityKind>(b"500000          "),
        Some(50_000_000)
    );
    assert_eq!(rt; count::<QuantityKind>(b"0.000           "), None);
}

#[test]
fn integers_and_texts(rt: HostRuntime) {
    assert_eq!(rt; integer(b"  52"), Some(52));
    assert_eq!(rt; integer(b"0012"), Some(12));
    assert_eq!(rt; integer(b"    "), None);
    assert_eq!(rt; integer(b"12  "), None);
    assert!(rt; TimeOfDay::read(b"235959999").is_ok());
    assert!(rt; TimeOfDay::read(b"240000000").is_err());
    assert!(rt; TimeOfDay::read(b"235960000").is_err());
    assert!(rt; Pair::read(b"XAU/USD").is_ok());
    assert!(rt; Pair::read(b"EUR-USD").is_err());
    assert!(rt; OrderId::read(b"A 1            ").is_ok());
    assert!(rt; OrderId::read(b" A1            ").is_err());
    assert!(rt; Maker::read(b"BANK1           ").is_ok());
    assert!(rt; Maker::read(b"BANK1          ").is_err());
}

#[test]
fn written(rt: HostRuntime) -> Result<(), Fail> {
    let mut out = [b'#'; 20];
    let price = Price::read(b"1.50200   ")?;
    price.write(&mut out, 4)?;
    assert!(rt; out == *b"####1.502     ######");
    assert_eq!(rt; price.write(&mut out, 11), Err(Fault::NoRoom));
    assert!(rt; out == *b"####1.502     ######");
    Quantity::read(b"0.0             ")?.write(&mut out, 2)?;
    assert!(rt; out == *b"##                ##");
    Integer::<6>::read(b"000042")?.write(&mut out, 14)?;
    assert!(rt; out == *b"##                42");
    Ok(())
}

#[test]
fn lengths(rt: HostRuntime) {
    let body = [b'E'; 49_152];
    assert_eq!(rt; fault(&body[0..49_151]), Some(FormFault::WrongLength));
    assert_eq!(rt; fault(&body), Some(FormFault::TooLong));
    assert_eq!(rt; fault(&body[0..101]), None);
    assert_eq!(rt; fault(b"S142409777"), Some(FormFault::WrongLength));
    assert_eq!(rt; fault(b"S142409777T"), None);
    assert_eq!(rt; fault(b"R  x1EUR"), Some(FormFault::BadField(1)));
}
