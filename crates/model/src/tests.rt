use crate::kind::Kind;
use crate::line::Line;
use crate::policy::Policy;
use crate::tasks::Tasks;
use arrayvec::ArrayVec;
use std::test::Fail;

#[test]
fn a_place_is_made_and_filled(rt: HostRuntime) -> Result<(), Fail> {
    let mut place = Tasks::new(rt.alloc())?;
    assert_eq!(rt; place.lines().len(), 0);
    assert_eq!(rt; place.policy(), Policy::Dm);
    let mut lines = ArrayVec::new();
    lines.push(Line {
        kind: Kind::Regular,
        length: 2,
        deadline: 2,
        period: 32,
        ..Line::default()
    });
    place.fill(Policy::Ed, &lines);
    assert_eq!(rt; place.policy(), Policy::Ed);
    assert_eq!(rt; place.lines().len(), 1);
    assert_eq!(rt; place.lines()[0].period, 32);
    Ok(())
}
