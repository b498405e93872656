//! Numbers of the field, decimal numbers and places in texts.

use byte_reading::{DecimalFault, leading_decimal, read_decimal};
use felt64::Felt;
use std::test::Fail;
use text_reading::{Place, Stop, number};

const MIXED: u64 = 12345678901234567890;

const OTHER: u64 = 9876543210987654321;

const TOP: u64 = 18446744069414584320;

fn felt(n: u64) -> Felt {
    Felt::reduce(n as u128)
}

#[test]
fn of_the_field(rt: HostRuntime) -> Result<(), Fail> {
    let (mixed, other, top) = (felt(MIXED), felt(OTHER), felt(TOP));
    assert_eq!(rt; mixed.add(other).value(), 3775478042807637890);
    assert_eq!(rt; felt(0).sub(felt(1)).value(), TOP);
    assert_eq!(rt; top.mul(top).value(), 1);
    assert_eq!(rt; felt(1).neg().value(), TOP);
    assert_eq!(rt; mixed.split(), (2874452364, 3944680146));
    assert_eq!(rt; Felt::new(TOP + 1), None);
    assert_eq!(rt; Felt::reduce(u128::MAX).value(), 18446744065119617024);
    assert_eq!(rt;
        mixed.to_string(rt.alloc())?.as_bytes(),
        b"12345678901234567890".as_slice()
    );
    Ok(())
}

#[test]
fn in_texts(rt: HostRuntime) {
    assert_eq!(rt; read_decimal(b"10", 10), Ok(10));
    assert_eq!(rt; read_decimal(b"10", 9), Err(DecimalFault::TooLarge));
    assert_eq!(rt; read_decimal(b"01", 9), Err(DecimalFault::NotDigits));
    assert!(rt; leading_decimal(b"12]", 99).is_ok_and(|found| found.0 == 12));
    let mut rest = b"12 // x".as_slice();
    assert_eq!(rt; number(&mut rest, 99, true, 7), Ok(12));
    assert_eq!(rt; rest, b"".as_slice());
    let mut rest = b"12 /x".as_slice();
    assert_eq!(rt; number(&mut rest, 99, true, 7), Err(Stop::Syntax));
    assert_eq!(rt; rest, b"x".as_slice());
    assert_eq!(rt; Place::behind(b"\n\r\nxyz"), Place { line: 3, column: 4 });
}
