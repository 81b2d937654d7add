// What PS-16's standards and layers answer.
use crate::test_makings::{ppm, tally};
use standard::{Absolute, Diluent, Limits, Pollutant, Ps16, Standard, Statistics, Waiver};
use std::test::Fail;
use tally::Tally;
use terms::{Head, Kind, Level, Use};

// A level without runs, or with one or two, is not accurate, however alike its readings are.
#[test]
fn too_few_runs(rt: HostRuntime) -> Result<(), Fail> {
    let pollutant = Pollutant {
        head: ppm(Use::Compliance)?,
    };
    for n in 0..3 {
        assert!(rt; !pollutant.accuracy(Level::Low, &tally(&[(n, 2000, 2000)])?));
        assert!(rt; !Diluent.accuracy(Level::Low, &tally(&[(n, 2000, 2000)])?));
    }
    assert!(rt; pollutant.accuracy(Level::Low, &tally(&[(3, 2000, 2000)])?));
    assert!(rt; Diluent.accuracy(Level::Low, &tally(&[(3, 2000, 2000)])?));
    Ok(())
}

#[test]
fn margins(rt: HostRuntime) -> Result<(), Fail> {
    match Absolute::over(Diluent, 50_001) {
        Ok(_) => return Err(Fail::new("a margin over 50,000")),
        Err(refusal) => {
            assert_eq!(rt; refusal.number(), 12);
            assert!(rt;
                !refusal
                    .below
                    .accuracy(Level::Low, &tally(&[(3, 100, 200)])?)
            );
        }
    }
    assert!(rt; Absolute::over(Diluent, 50_000).is_ok());
    let Ok(standard) = Absolute::over(Diluent, 100) else {
        return Err(Fail::new("no margin of 100"));
    };
    assert!(rt; standard.accuracy(Level::Low, &tally(&[(3, 100, 200)])?));
    assert!(rt; !standard.accuracy(Level::Low, &tally(&[(3, 100, 201)])?));
    Ok(())
}

#[test]
fn waived(rt: HostRuntime) -> Result<(), Fail> {
    let head = ppm(Use::Compliance)?;
    let standard = Waiver {
        below: Statistics {
            below: Pollutant { head },
            head,
        },
        head,
    };
    let low = tally(&[(9, 99, 0)])?;
    assert!(rt; standard.statistics(Level::Low, &low));
    assert!(rt; !standard.statistics(Level::Low, &tally(&[(8, 2000, 2000)])?));
    // All three are waived; with one that is not, the others are emptied, and alone it has no correlation.
    assert!(rt; standard.together(&low, &low, &low));
    let high = tally(&[(9, 3000, 3000)])?;
    assert!(rt; !standard.together(&low, &low, &high));
    assert!(rt; standard.together(&low, &tally(&[(9, 2000, 2000)])?, &high));
    assert!(rt; !standard.together(&Tally::none(), &Tally::none(), &Tally::none()));
    Ok(())
}

#[test]
fn piles(rt: HostRuntime) -> Result<(), Fail> {
    let excess = Limits {
        least_kept: 3,
        most_struck: 3,
        most_in_all: 3,
    };
    let compliance = Limits {
        least_kept: 9,
        most_struck: 3,
        most_in_all: 9,
    };
    for (kind, emission) in [(Kind::Ppm, 1), (Kind::Heat, 1), (Kind::Diluent, 0)] {
        for usage in [Use::Excess, Use::Compliance] {
            let (limits, expected) = match Ps16::of(Head::new(kind, usage, emission, 1)?) {
                Ps16::Excess(s) => (s.limits(), excess),
                Ps16::ExcessDiluent(s) => (s.limits(), excess),
                Ps16::Compliance(s) => (s.limits(), compliance),
                Ps16::ComplianceDiluent(s) => (s.limits(), compliance),
            };
            assert_eq!(rt; limits, expected);
        }
    }
    Ok(())
}
