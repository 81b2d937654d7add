// Heads that are made and refused, at the edges of their ranges.
use terms::{Head, Kind, Use};

// The number of the refusal, none where a head is made.
fn refused(kind: Kind, emission: u32, span: u32) -> Option<u32> {
    Head::new(kind, Use::Excess, emission, span)
        .err()
        .map(|refusal| refusal.number())
}

#[test]
fn pollutants(rt: HostRuntime) {
    for kind in [Kind::Ppm, Kind::Heat] {
        assert_eq!(rt; refused(kind, 1, 1), None);
        assert_eq!(rt; refused(kind, 50_000, 50_000), None);
        assert_eq!(rt; refused(kind, 0, 0), Some(10));
        assert_eq!(rt; refused(kind, 50_001, 50_001), Some(10));
        assert_eq!(rt; refused(kind, 1, 0), Some(11));
        assert_eq!(rt; refused(kind, 50_000, 50_001), Some(11));
    }
}

#[test]
fn diluent(rt: HostRuntime) {
    assert_eq!(rt; refused(Kind::Diluent, 0, 1), None);
    assert_eq!(rt; refused(Kind::Diluent, 0, 10_000), None);
    assert_eq!(rt; refused(Kind::Diluent, 1, 0), Some(10));
    assert_eq!(rt; refused(Kind::Diluent, 0, 0), Some(11));
    assert_eq!(rt; refused(Kind::Diluent, 0, 10_001), Some(11));
}
