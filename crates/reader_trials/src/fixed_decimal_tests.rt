use fixed_decimal::{DecimalFault, parse_fixed};

#[test]
fn decimals_are_rounded_up_to_the_limits(rt: HostRuntime) {
    let greatest = 1_000_000_000_000_000_000;
    let out_of_range = Err(DecimalFault::OutOfRange);
    for (text, places, want) in [
        ("1e-05", 6, Ok(10)),
        ("-0.00005", 4, Ok(-1)),
        ("0.00004999", 4, Ok(0)),
        ("+.5", 0, Ok(1)),
        ("0.5e0", 0, Ok(1)),
        ("2.5", 0, Ok(3)),
        ("-2.5", 0, Ok(-3)),
        ("5.", 4, Ok(50_000)),
        ("690000.1234", 4, Ok(6_900_001_234)),
        ("-12E+2", 1, Ok(-12_000)),
        ("1e0000000000000000000000001", 0, Ok(10)),
        ("5e-400", 9, Ok(0)),
        ("0e400", 4, Ok(0)),
        ("1e18", 0, Ok(greatest)),
        ("-1e9", 9, Ok(-greatest)),
        ("1000000000000000000.4", 0, Ok(greatest)),
        ("1000000000000000000.5", 0, out_of_range),
        ("1000000000000000001", 0, out_of_range),
        ("1e401", 4, out_of_range),
        ("0e401", 4, out_of_range),
        ("0e-401", 4, out_of_range),
    ] {
        assert_eq!(rt; parse_fixed(text.as_bytes(), places), want, "at {text}");
    }
}

#[test]
fn refuses_what_is_no_decimal_or_too_long(rt: HostRuntime) {
    for text in [
        "", ".", "1e", " 1", "1 ", "+", "e5", "1e+", "1e5.", "--1", "1.2.3", "0x1",
    ] {
        assert_eq!(rt;
            parse_fixed(text.as_bytes(), 4),
            Err(DecimalFault::Malformed),
            "at {text}"
        );
    }
    assert_eq!(rt; parse_fixed(&[b'0'; 64], 4), Ok(0));
    assert_eq!(rt; parse_fixed(&[b'0'; 65], 4), Err(DecimalFault::TooLong));
    assert_eq!(rt; parse_fixed(&[b' '; 65], 4), Err(DecimalFault::TooLong));
}
