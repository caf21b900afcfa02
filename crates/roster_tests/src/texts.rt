//! Days, moments, ids, names, tokens, numbers, years and flags, read from texts.

use roster_texts::moment::read_day;
use roster_texts::number::{read_flag, read_number, read_year};
use roster_texts::{Id, Moment, Name, Token, ValueFault};

// Days, and the number of each.
static DAYS: [(&str, Option<i32>); 24] = [
    ("1970-01-01", Some(0)),
    ("1969-12-31", Some(-1)),
    ("1896-02-29", Some(-26969)),
    ("1900-03-01", Some(-25508)),
    ("2000-02-29", Some(11016)),
    ("2024-02-29", Some(19782)),
    ("2024-12-31", Some(20088)),
    ("0001-01-01", Some(-719162)),
    ("9999-12-31", Some(2932896)),
    // The written day counts, and not the day in UTC.
    ("2024-08-01T23:30:00-05:00", Some(19936)),
    ("1900-02-29", None),
    ("2023-02-29", None),
    ("2024-04-31", None),
    ("2024-13-01", None),
    ("2024-00-10", None),
    ("2024-01-00", None),
    ("0000-01-01", None),
    ("2024-4-01", None),
    ("2024/08/01", None),
    ("-024-08-01", None),
    (" 2024-08-01", None),
    ("2024-08-01T23:30:00", None),
    ("0001-01-01T00:00:00+02:00", None),
    ("", None),
];

#[test]
fn days(rt: HostRuntime) {
    for (text, want) in &DAYS {
        let number = read_day(text.as_bytes()).map(|day| day.number());
        assert_eq!(rt; number, *want, "at {text}");
    }
}

// Moments, and each in milliseconds.
static MOMENTS: [(&str, Option<i64>); 35] = [
    ("2024-08-01", Some(1_722_470_400_000)),
    ("2001-09-09T01:46:40Z", Some(1_000_000_000_000)),
    ("2009-02-14T01:31:30.5+02:00", Some(1_234_567_890_500)),
    ("2024-02-29T23:59:59.999-05:00", Some(1_709_269_199_999)),
    ("2024-01-01T00:30:00+13:45", Some(1_704_019_500_000)),
    ("2000-02-29T12:00:00-23:59", Some(951_911_940_000)),
    ("1900-03-01T00:00:00+00:01", Some(-2_203_891_260_000)),
    ("1970-01-01T00:00:00.04-00:00", Some(40)),
    ("1969-12-31T23:59:59.999Z", Some(-1)),
    // Digits past the milliseconds are dropped.
    ("2038-01-19T03:14:07.999999999Z", Some(2_147_483_647_999)),
    ("1970-01-01T00:00:00.0005Z", Some(0)),
    // The ends of the range.
    ("9999-12-31T23:59:59.999Z", Some(253_402_300_799_999)),
    ("9999-12-31T00:01:00.001-23:58", Some(253_402_300_740_001)),
    ("0001-01-01T00:00:00Z", Some(-62_135_596_800_000)),
    ("0001-01-01T23:58:00+23:58", Some(-62_135_596_800_000)),
    ("9999-12-31T23:59:00.000-00:01", None),
    ("0001-01-01T00:00:59.999+00:01", None),
    ("0000-12-31T23:59:59.999Z", None),
    ("1900-02-29T00:00:00Z", None),
    ("2024-08-01T24:00:00Z", None),
    ("2024-08-01T23:60:00Z", None),
    ("2024-08-01T23:59:60Z", None),
    ("2024-08-01T10:00:00+24:00", None),
    ("2024-08-01T10:00:00+10:60", None),
    ("2024-08-01T10:00:00", None),
    ("2024-08-01t10:00:00Z", None),
    ("2024-08-01T10:00:00z", None),
    ("2024-08-01 10:00:00Z", None),
    ("2024-08-01T10:00Z", None),
    ("2024-08-01T10:00:00.Z", None),
    ("2024-08-01T10:00:00,5Z", None),
    ("2024-08-01T10:00:00.1234567890Z", None),
    ("2024-08-01T10:00:00+0200", None),
    ("2024-08-01T10:00:00+02", None),
    ("Z", None),
];

#[test]
fn moments(rt: HostRuntime) {
    for (text, want) in &MOMENTS {
        let milliseconds = Moment::read(text.as_bytes()).map(|moment| moment.milliseconds());
        assert_eq!(rt; milliseconds, *want, "at {text}");
    }
}

// Texts, and whether each may be an id, a name, a token.
static SORTS: [(&str, (bool, bool, bool)); 16] = [
    ("s1", (true, true, true)),
    ("lake-west_1.a", (true, true, true)),
    ("", (false, false, false)),
    ("a b", (true, false, false)),
    (" a", (false, false, false)),
    ("a ", (false, false, false)),
    ("a,b", (false, false, false)),
    ("a\tb", (false, false, false)),
    ("a\u{7f}", (false, false, false)),
    ("\u{e9}", (true, false, false)),
    ("a/b", (true, false, true)),
    ("aB0-._~+/==", (true, false, true)),
    ("==", (true, false, false)),
    ("a=b", (true, false, false)),
    // A name has at most 64 bytes.
    (
        "0123456789012345678901234567890123456789012345678901234567890123",
        (true, true, true),
    ),
    (
        "01234567890123456789012345678901234567890123456789012345678901234",
        (true, false, true),
    ),
];

#[test]
fn ids_names_and_tokens(rt: HostRuntime) {
    for (text, want) in &SORTS {
        let sorts = (Id::is_good(text), Name::is_good(text), Token::is_good(text));
        assert_eq!(rt; sorts, *want, "at {text}");
    }
}

const BAD: Result<i64, ValueFault> = Err(ValueFault::BadNumber);

const FRACTION: Result<i64, ValueFault> = Err(ValueFault::Fractional);

const BAD_YEAR: Result<u16, ValueFault> = Err(ValueFault::BadNumber);

// Texts, and each as a number and as a year.
static NUMBERS: [(&str, Result<i64, ValueFault>, Result<u16, ValueFault>); 22] = [
    ("0", Ok(0), BAD_YEAR),
    ("-0", Ok(0), BAD_YEAR),
    ("007", Ok(7), BAD_YEAR),
    ("0025", Ok(25), Ok(25)),
    ("2025", Ok(2025), Ok(2025)),
    ("9999", Ok(9999), Ok(9999)),
    ("20250", Ok(20250), BAD_YEAR),
    ("20a4", BAD, BAD_YEAR),
    ("78.0", Ok(78), BAD_YEAR),
    ("-12.00", Ok(-12), BAD_YEAR),
    ("999999999999", Ok(999_999_999_999), BAD_YEAR),
    ("-999999999999", Ok(-999_999_999_999), BAD_YEAR),
    ("78.5", FRACTION, BAD_YEAR),
    ("-0.10", FRACTION, BAD_YEAR),
    ("1234567890123", BAD, BAD_YEAR),
    ("seven", BAD, BAD_YEAR),
    ("12.", BAD, BAD_YEAR),
    (".5", BAD, BAD_YEAR),
    ("--1", BAD, BAD_YEAR),
    ("+1", BAD, BAD_YEAR),
    ("1e3", BAD, BAD_YEAR),
    ("", BAD, BAD_YEAR),
];

#[test]
fn numbers_and_years(rt: HostRuntime) {
    for (text, number, year) in &NUMBERS {
        let bytes = text.as_bytes();
        assert_eq!(rt;
            (read_number(bytes), read_year(bytes)),
            (*number, *year),
            "at {text}"
        );
    }
}

static FLAGS: [(&str, Result<bool, ValueFault>); 5] = [
    ("true", Ok(true)),
    ("TRUE", Ok(true)),
    ("fAlse", Ok(false)),
    ("yes", Err(ValueFault::NotInList)),
    ("true ", Err(ValueFault::NotInList)),
];

#[test]
fn flags(rt: HostRuntime) {
    for (text, want) in &FLAGS {
        assert_eq!(rt; read_flag(text), *want, "at {text}");
    }
}
