use crews::{Answer, Bench, Call, Difference, Swap, Verdict, replay};
use net::{Fault, Joined, Net, Refusal, Ring};
use records::FileNet;
use std::test::Fail;

// Three places, and from each a transition that makes two tokens of one: 0 to 0 and 0, 1 to 1 and 2, 2 to 1 and 1.
const DOUBLING: [u8; 48] = [
    1, 0, 0, 0, 0, 0, 0, 0, 1, 1, 0, 0, 0, 0, 0, 0, 1, 2, 0, 0, 0, 0, 0, 0, //
    2, 0, 0, 2, 0, 0, 255, 255, 2, 1, 0, 2, 1, 2, 255, 255, 2, 2, 0, 2, 1, 1, 255, 255,
];

// Four places: 0 to 0, 1 to 2, 2 to 1, and from 3 to nothing. Places 0, 1 and 2 are of one class, and 3 is alone.
const FOUR: [u8; 64] = [
    1, 0, 0, 0, 0, 0, 0, 0, 1, 1, 0, 0, 0, 0, 0, 0, 1, 2, 0, 0, 0, 0, 0, 0, 1, 3, 0, 0, 0, 0, 0, 0, //
    2, 0, 0, 1, 0, 255, 255, 255, 2, 1, 0, 1, 2, 255, 255, 255, //
    2, 2, 0, 1, 1, 255, 255, 255, 2, 3, 0, 0, 255, 255, 255, 255,
];

// Two places: 0 to 0, and from 1 to nothing.
const ENDING: [u8; 32] = [
    1, 0, 0, 0, 0, 0, 0, 0, 1, 1, 0, 0, 0, 0, 0, 0, //
    2, 0, 0, 1, 0, 255, 255, 255, 2, 1, 0, 0, 255, 255, 255, 255,
];

// A full crew may not fire what makes two tokens of one, and is then as it was.
#[test]
fn full_crews_stay_full(rt: HostRuntime) {
    let mut bench = Bench::new(FileNet::new(&DOUBLING));
    assert_eq!(rt; bench.put(0, 0, 4096), Ok(()));
    assert_eq!(rt; bench.fire(0, 0), Err(Fault::plain(Refusal::TooManyTokens)));
    assert_eq!(rt; bench.count(0, 0), Ok(4096));
    assert_eq!(rt; bench.take(0, 0, 1), Ok(()));
    assert_eq!(rt; bench.fire(0, 0), Ok(()));
    assert_eq!(rt; bench.count(0, 0), Ok(4096));
}

// A full crew may fire what puts down one token or none.
#[test]
fn full_crews_move(rt: HostRuntime) {
    let mut bench = Bench::new(FileNet::new(&ENDING));
    assert_eq!(rt; bench.put(1, 0, 4095), Ok(()));
    assert_eq!(rt; bench.put(1, 1, 1), Ok(()));
    assert_eq!(rt; bench.fire(1, 0), Ok(()));
    assert_eq!(rt; bench.fire(1, 1), Ok(()));
    assert_eq!(rt; bench.count(1, 0), Ok(4095));
    assert_eq!(rt; bench.count(1, 1), Ok(0));
    assert_eq!(rt; bench.count(0, 0), Ok(0));
}

fn is_replayed<N: Net + Drop>(
    net: N,
    calls: &[Call],
    answers: &mut [Result<Answer, Fault>],
) -> bool {
    replay(net, calls, answers).is_ok()
}

// On a file's net joined with a ring, the ring's places and transitions come after the file's three.
#[test]
fn joined_benches_move(rt: HostRuntime) {
    let net = Joined::new(FileNet::new(&DOUBLING), Ring::new(2, 7));
    let calls = [
        Call::Put {
            side: 1,
            place: 4,
            count: 1,
        },
        Call::Fire {
            side: 1,
            transition: 4,
        },
        Call::Count { side: 1, place: 3 },
        Call::Fire {
            side: 1,
            transition: 5,
        },
    ];
    let mut answers = [Ok(Answer::Tokens(9)); 5];
    assert!(rt; is_replayed(net, &calls, &mut answers));
    assert_eq!(rt; answers[0], Ok(Answer::Done));
    assert_eq!(rt; answers[1], Ok(Answer::Done));
    assert_eq!(rt; answers[2], Ok(Answer::Tokens(1)));
    assert_eq!(rt; answers[3], Err(Fault::plain(Refusal::OutOfRange)));
    assert_eq!(rt; answers[4], Ok(Answer::Tokens(9)));
}

// A list with too little room for the answers is refused, and is then as it was.
#[test]
fn answers_need_room(rt: HostRuntime) -> Result<(), Fail> {
    let calls = [Call::Count { side: 0, place: 0 }; 2];
    let mut answers = [Ok(Answer::Tokens(9)); 1];
    match replay(Ring::new(3, 0), &calls, &mut answers) {
        Ok(_) => Err(Fail::new("there is no room")),
        Err(fault) => {
            assert_eq!(rt; fault, Fault::plain(Refusal::ShortList));
            assert_eq!(rt; answers[0], Ok(Answer::Tokens(9)));
            Ok(())
        }
    }
}

const NO_SWAP: Swap = Swap {
    left: 9,
    right: 9,
    count: 9,
};

// Two left modules on place 0 are replaced by right ones on 1 and 2, and the one on 3 by the one on 3. The list behind that is as it was.
#[test]
fn alike_crews_are_listed(rt: HostRuntime) {
    let mut bench = Bench::new(FileNet::new(&FOUR));
    assert_eq!(rt; bench.put(0, 0, 2), Ok(()));
    assert_eq!(rt; bench.put(0, 3, 1), Ok(()));
    assert_eq!(rt; bench.put(1, 1, 1), Ok(()));
    assert_eq!(rt; bench.put(1, 2, 1), Ok(()));
    assert_eq!(rt; bench.put(1, 3, 1), Ok(()));
    let mut list = [NO_SWAP; 8];
    assert_eq!(rt; bench.compare(&mut list), Ok(Verdict::Alike { used: 3 }));
    assert_eq!(rt;
        list[0],
        Swap {
            left: 0,
            right: 1,
            count: 1,
        }
    );
    assert_eq!(rt;
        list[1],
        Swap {
            left: 0,
            right: 2,
            count: 1,
        }
    );
    assert_eq!(rt;
        list[2],
        Swap {
            left: 3,
            right: 3,
            count: 1,
        }
    );
    assert_eq!(rt; list[3], NO_SWAP);
}

// Two left modules and one right one in class 0: the crews are apart, and the list is as it was.
#[test]
fn apart_crews_are_not_listed(rt: HostRuntime) {
    let mut bench = Bench::new(FileNet::new(&FOUR));
    assert_eq!(rt; bench.put(0, 0, 2), Ok(()));
    assert_eq!(rt; bench.put(1, 1, 1), Ok(()));
    let mut list = [NO_SWAP; 8];
    let differ = Difference {
        class: 0,
        left: 2,
        right: 1,
    };
    assert_eq!(rt; bench.compare(&mut list), Ok(Verdict::Apart(differ)));
    assert_eq!(rt; list[0], NO_SWAP);
}

// Four places ask for eight entries, also where no module is on them.
#[test]
fn swap_lists_need_room(rt: HostRuntime) {
    let bench = Bench::new(FileNet::new(&FOUR));
    let mut list = [NO_SWAP; 7];
    assert_eq!(rt;
        bench.compare(&mut list),
        Err(Fault::plain(Refusal::ShortList))
    );
    let mut room = [NO_SWAP; 8];
    assert_eq!(rt; bench.compare(&mut room), Ok(Verdict::Alike { used: 0 }));
}

// A left move from 0 to 0 is followed by the right module, from 1 to 2 or from 2 to 1; the modules on 3 end together.
#[test]
fn crews_follow(rt: HostRuntime) {
    let mut bench = Bench::new(FileNet::new(&FOUR));
    assert_eq!(rt; bench.put(0, 0, 1), Ok(()));
    assert_eq!(rt; bench.put(1, 1, 1), Ok(()));
    assert_eq!(rt; bench.follow(0, 0), Ok(1));
    assert_eq!(rt; bench.count(0, 0), Ok(1));
    assert_eq!(rt; bench.count(1, 1), Ok(0));
    assert_eq!(rt; bench.count(1, 2), Ok(1));
    assert_eq!(rt; bench.put(0, 3, 1), Ok(()));
    assert_eq!(rt; bench.follow(0, 3), Err(Fault::plain(Refusal::CrewsApart)));
    assert_eq!(rt; bench.put(1, 3, 1), Ok(()));
    assert_eq!(rt; bench.follow(0, 3), Ok(3));
    assert_eq!(rt; bench.count(0, 3), Ok(0));
    assert_eq!(rt; bench.count(1, 3), Ok(0));
}
