// The tables of t and F, read off what the tests answer.
use crate::test_makings::tally;
use accuracy::confidence;
use statistics::is_steady;
use std::test::Fail;
use tally::Tally;
use terms::{Head, Kind, Use};

// One pair, and so many others with no readings.
fn one_of(n: u32, reference: u32, predicted: u32) -> Result<Tally, Fail> {
    tally(&[(1, reference, predicted), (n.saturating_sub(1), 0, 0)])
}

// With one difference of 1, W is n − 1.
#[test]
fn student(rt: HostRuntime) -> Result<(), Fail> {
    for (n, t) in [
        (3u32, 4303u64),
        (4, 3182),
        (5, 2776),
        (6, 2571),
        (7, 2447),
        (8, 2365),
        (9, 2306),
        (10, 2262),
        (11, 2228),
        (12, 2201),
    ] {
        let squared = t.wrapping_mul(t).wrapping_mul(u64::from(n.wrapping_sub(1)));
        assert_eq!(rt;
            confidence(&one_of(n, 1, 0)?),
            Some(squared),
            "T² times n − 1"
        );
    }
    assert_eq!(rt; confidence(&one_of(2, 1, 0)?), None);
    assert_eq!(rt; confidence(&one_of(1, 1, 0)?), None);
    assert_eq!(rt; confidence(&Tally::none()), None);
    Ok(())
}

// With references of 20,000 and nothing else, the predictions may be just so high.
#[test]
fn critical(rt: HostRuntime) -> Result<(), Fail> {
    let head = Head::new(Kind::Heat, Use::Compliance, 1, 1)?;
    for (n, most) in [(9, 37_083), (10, 35_760), (11, 34_513), (12, 33_567)] {
        assert!(rt; is_steady(&head, &one_of(n, 20_000, most)?));
        assert!(rt; !is_steady(&head, &one_of(n, 20_000, most + 1)?));
    }
    assert!(rt; !is_steady(&head, &one_of(8, 20_000, 0)?));
    Ok(())
}
