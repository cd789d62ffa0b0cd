use super::*;
use classing::{Move, NO_TARGET as NO, Partition, classes, tokens_in};
use net::{Fault, Refusal, Ring};

// A transition: place, label, targets.
fn go(place: u8, label: u8, targets: [u8; 4]) -> Move {
    Move {
        place,
        label,
        targets,
    }
}

// The four-place net: 0 goes to itself, 1 and 2 to each other, 3 ends. One round parts 3 from the others; what stands past the places stays.
#[test]
fn four_places(rt: HostRuntime) {
    let moves = [
        go(0, 0, [0, NO, NO, NO]),
        go(1, 0, [2, NO, NO, NO]),
        go(2, 0, [1, NO, NO, NO]),
        go(3, 0, [NO, NO, NO, NO]),
    ];
    let net = Listed::new(4, &moves);
    let mut list = [9; 6];
    assert_eq!(rt; classes(&net, &mut list), Ok(1));
    assert_eq!(rt; &list[..], &[0, 0, 0, 3, 9, 9][..]);
    let mut short = [9; 3];
    assert_eq!(rt;
        classes(&net, &mut short),
        Err(Fault::plain(Refusal::ShortList))
    );
    assert_eq!(rt; &short[..], &[9, 9, 9][..]);
}

// The same words, but the choice falls earlier at 2: five classes, and two rounds.
#[test]
fn choices_tell_places_apart(rt: HostRuntime) {
    let moves = [
        go(0, 0, [1, NO, NO, NO]),
        go(1, 1, [NO, NO, NO, NO]),
        go(1, 2, [NO, NO, NO, NO]),
        go(2, 0, [3, NO, NO, NO]),
        go(2, 0, [4, NO, NO, NO]),
        go(3, 1, [NO, NO, NO, NO]),
        go(4, 2, [NO, NO, NO, NO]),
    ];
    let net = Listed::new(5, &moves);
    let mut list = [9; 5];
    assert_eq!(rt; classes(&net, &mut list), Ok(2));
    assert_eq!(rt; &list[..], &[0, 1, 2, 3, 4][..]);
}

// A token on a stuck place is not an ended one.
#[test]
fn stuck_is_not_ended(rt: HostRuntime) {
    let moves = [go(0, 0, [1, NO, NO, NO]), go(2, 0, [NO, NO, NO, NO])];
    let net = Listed::new(3, &moves);
    let mut list = [9; 3];
    assert_eq!(rt; classes(&net, &mut list), Ok(1));
    assert_eq!(rt; &list[..], &[0, 1, 2][..]);
}

// Two tokens each, wherever they go, in one class; one token instead makes another class.
#[test]
fn targets_are_counted(rt: HostRuntime) {
    let moves = [
        go(0, 0, [0, 0, NO, NO]),
        go(1, 0, [1, 2, NO, NO]),
        go(2, 0, [1, 1, NO, NO]),
    ];
    let two = Listed::new(3, &moves);
    let mut list = [9; 3];
    assert_eq!(rt; classes(&two, &mut list), Ok(0));
    assert_eq!(rt; &list[..], &[0, 0, 0][..]);
    let table = Partition::of(&two).table;
    assert_eq!(rt; tokens_in(&two, &table, 1, 0), 2);
    assert_eq!(rt; tokens_in(&two, &table, 1, 1), 0);
    let moves = [
        go(0, 0, [0, NO, NO, NO]),
        go(1, 0, [1, 2, NO, NO]),
        go(2, 0, [1, 1, NO, NO]),
    ];
    let one = Listed::new(3, &moves);
    assert_eq!(rt; classes(&one, &mut list), Ok(1));
    assert_eq!(rt; &list[..], &[0, 1, 1][..]);
}

// The transitions of bisimilar places need not stand in the same order, nor be equally many.
#[test]
fn order_and_repeats_do_not_matter(rt: HostRuntime) {
    let moves = [
        go(0, 1, [NO, NO, NO, NO]),
        go(0, 2, [NO, NO, NO, NO]),
        go(1, 2, [NO, NO, NO, NO]),
        go(1, 1, [NO, NO, NO, NO]),
        go(1, 2, [NO, NO, NO, NO]),
    ];
    let net = Listed::new(2, &moves);
    let mut list = [9; 2];
    assert_eq!(rt; classes(&net, &mut list), Ok(0));
    assert_eq!(rt; &list[..], &[0, 0][..]);
}

// A ring of 128 is one class in no rounds, and a net without places has no rounds.
#[test]
fn rings(rt: HostRuntime) {
    let mut list = [9; 128];
    assert_eq!(rt; classes(&Ring::new(128, 3), &mut list), Ok(0));
    assert_eq!(rt; &list[..], &[0; 128][..]);
    let mut none = [9; 1];
    assert_eq!(rt; classes(&Ring::new(129, 3), &mut none), Ok(0));
    assert_eq!(rt; none[0], 9);
}
