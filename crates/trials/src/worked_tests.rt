// The worked pairs, put to the code.
use crate::test_makings::{ppm, tally};
use accuracy::pollutant;
use statistics::{are_correlated, is_steady};
use std::test::Fail;
use tally::Tally;
use terms::Use;
use worked::{Edge, worked_pairs};

fn accurate(at: &[(u32, u32, u32)], beyond: &[(u32, u32, u32)]) -> Result<Edge, Fail> {
    Ok(Edge {
        at: pollutant(&ppm(Use::Compliance)?, &tally(at)?),
        beyond: pollutant(&ppm(Use::Compliance)?, &tally(beyond)?),
    })
}

#[test]
fn accuracy(rt: HostRuntime) -> Result<(), Fail> {
    let worked = worked_pairs();
    let tenth = accurate(&[(3, 2000, 1800)], &[(1, 2000, 1799), (2, 2000, 1800)])?;
    assert_eq!(rt; tenth, worked.tenth);
    let fifth = accurate(&[(3, 1200, 1000)], &[(3, 1201, 1001)])?;
    assert_eq!(rt; fifth, worked.fifth);
    let scatter = accurate(
        &[(4, 2000, 2260), (4, 2000, 1740), (1, 2000, 2000)],
        &[(4, 2000, 2261), (4, 2000, 1739), (1, 2000, 2000)],
    )?;
    assert_eq!(rt; scatter, worked.scatter);
    Ok(())
}

#[test]
fn variance(rt: HostRuntime) -> Result<(), Fail> {
    let at = tally(&[(4, 2100, 2185), (4, 1900, 1815), (1, 2000, 2000)])?;
    let beyond = tally(&[(4, 2100, 2186), (4, 1900, 1814), (1, 2000, 2000)])?;
    let edge = Edge {
        at: is_steady(&ppm(Use::Compliance)?, &at),
        beyond: is_steady(&ppm(Use::Compliance)?, &beyond),
    };
    assert_eq!(rt; edge, worked_pairs().variance);
    Ok(())
}

#[test]
fn correlation(rt: HostRuntime) -> Result<(), Fail> {
    let three = tally(&[(1, 100, 100), (1, 200, 300), (1, 300, 200)])?;
    let none = Tally::none();
    let edge = Edge {
        at: are_correlated(&three, &tally(&[(1, 400, 400)])?, &none),
        beyond: are_correlated(&three, &tally(&[(1, 400, 399)])?, &none),
    };
    assert_eq!(rt; edge, worked_pairs().correlation);
    Ok(())
}
