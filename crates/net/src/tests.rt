use super::*;
use std::test::Fail;

// A fault is written as its number, with the spot behind it where one is named.
#[test]
fn faults_are_written(rt: HostRuntime) -> Result<(), Fail> {
    let plain = Fault::plain(Refusal::UnknownLine).to_string(rt.alloc())?;
    assert_eq!(rt; plain.as_str(), "13");
    let at = Fault::at(Refusal::OverLimit, 2048).to_string(rt.alloc())?;
    assert_eq!(rt; at.as_str(), "4 2048");
    Ok(())
}

// A ring has as many places as it was asked for, up to the limits, and none beyond them.
#[test]
fn rings_keep_the_limits(rt: HostRuntime) {
    assert_eq!(rt; Ring::new(128, 63).places(), 128);
    assert_eq!(rt; Ring::new(128, 63).transitions(), 128);
    assert_eq!(rt; Ring::new(129, 0).places(), 0);
    assert_eq!(rt; Ring::new(129, 0).transitions(), 0);
    assert_eq!(rt; Ring::new(3, 64).places(), 0);
}

// The last transition of a ring leads back to place 0, and one past it is answered by 0.
#[test]
fn rings_close(rt: HostRuntime) {
    let ring = Ring::new(5, 9);
    assert_eq!(rt; ring.place(4), 4);
    assert_eq!(rt; ring.label(4), 9);
    assert_eq!(rt; ring.total(4), 1);
    assert_eq!(rt; ring.tokens(4, 0), 1);
    assert_eq!(rt; ring.tokens(4, 4), 0);
    assert_eq!(rt; ring.label(5), 0);
    assert_eq!(rt; ring.total(5), 0);
}

// The targets of a transition stand in front, and no target behind them; one past the last transition has none.
#[test]
fn targets_are_listed(rt: HostRuntime) {
    let joined = Joined::new(Ring::new(2, 0), Ring::new(3, 0));
    assert_eq!(rt;
        targets_of(&joined, 1),
        [0, NO_TARGET, NO_TARGET, NO_TARGET]
    );
    assert_eq!(rt;
        targets_of(&joined, 3),
        [4, NO_TARGET, NO_TARGET, NO_TARGET]
    );
    assert_eq!(rt; targets_of(&joined, 5), [NO_TARGET; WIDTH]);
}

// Rings of 64 and 64 fit together; with 64 and 65 the answer is 5, and the joined net is empty.
#[test]
fn joins_keep_the_limits(rt: HostRuntime) {
    let half = Ring::new(64, 0);
    let more = Ring::new(65, 0);
    assert!(rt; fit(&half, &half).is_ok());
    assert_eq!(rt; Joined::new(half, half).places(), 128);
    assert_eq!(rt; Refusal::Unfit.number(), 5);
    assert_eq!(rt; fit(&half, &more), Err(Fault::plain(Refusal::Unfit)));
    assert_eq!(rt; Joined::new(half, more).places(), 0);
    assert_eq!(rt; Joined::new(half, more).transitions(), 0);
}

// A joined net of joined nets: rings of 1, 2 and 3 places, one after the other.
#[test]
fn joins_nest(rt: HostRuntime) {
    let three = Joined::new(
        Joined::new(Ring::new(1, 10), Ring::new(2, 20)),
        Ring::new(3, 30),
    );
    assert_eq!(rt; three.places(), 6);
    assert_eq!(rt; three.transitions(), 6);
    assert_eq!(rt; three.place(2), 2);
    assert_eq!(rt; three.label(2), 20);
    assert_eq!(rt; three.tokens(2, 1), 1);
    assert_eq!(rt; three.place(5), 5);
    assert_eq!(rt; three.label(5), 30);
    assert_eq!(rt; three.tokens(5, 3), 1);
    assert_eq!(rt; three.tokens(5, 0), 0);
    assert_eq!(rt; three.place(6), 0);
}
