use hex::FromHexError;
use net::Refusal::{
    MalformedRecord, OverLimit, PartialRecord, ShortList, TooManyTokens, UndeclaredPlace,
};
use net::{Fault, Net, Refusal};
use records::{FileNet, MOST_BYTES, Tokens, check, write};
use std::alloc::Global;
use std::test::Fail;

// A transition record from place 0 to nothing, and a record of 0 tokens on place 0.
const NO_TARGETS: [u8; 8] = [2, 0, 0, 0, 255, 255, 255, 255];

const NO_TOKENS: [u8; 8] = [3, 0, 0, 0, 0, 0, 0, 0];

// So many places in order, transitions to nothing, records of 0 tokens, then these bytes: whether the file is admitted, or why not and at which spot.
#[derive(Clone, Copy)]
struct Case(u8, usize, usize, &'static str, Result<(), (Refusal, usize)>);

const CASES: [Case; 52] = [
    // the empty file
    Case(0, 0, 0, "", Ok(())),
    // a length that is no whole number of records, before anything else
    Case(0, 0, 0, "01", Err((PartialRecord, 0))),
    Case(0, 0, 0, "01000000000000", Err((PartialRecord, 0))),
    Case(0, 0, 0, "000000000000000001", Err((PartialRecord, 1))),
    Case(1, 0, 2047, "03", Err((PartialRecord, 2048))),
    // an unknown kind, first and last
    Case(0, 0, 0, "0000000000000000", Err((MalformedRecord, 0))),
    Case(1, 0, 2047, "0400000000000000", Err((MalformedRecord, 2048))),
    // a place record with a byte that is not 00
    Case(0, 0, 0, "0100010000000000", Err((MalformedRecord, 0))),
    Case(0, 0, 0, "0100000000000001", Err((MalformedRecord, 0))),
    // labels of 63 and 64, totals of 4 and 5
    Case(1, 0, 0, "02003F00FFFFFFFF", Ok(())),
    Case(1, 0, 0, "02004000FFFFFFFF", Err((MalformedRecord, 1))),
    Case(1, 0, 0, "0200000400000000", Ok(())),
    Case(1, 0, 0, "0200000500000000", Err((MalformedRecord, 1))),
    // a byte behind the targets that is not FF
    Case(1, 0, 0, "0200000000FFFFFF", Err((MalformedRecord, 1))),
    Case(1, 0, 0, "0200000100FFFF00", Err((MalformedRecord, 1))),
    // equal targets and a falling one
    Case(2, 0, 0, "020000020101FFFF", Ok(())),
    Case(2, 0, 0, "020000020100FFFF", Err((MalformedRecord, 2))),
    Case(1, 0, 0, "02000002FF00FFFF", Err((MalformedRecord, 1))),
    // a side above 1, and bytes of a token record that are not 00
    Case(1, 0, 0, "0302000000010000", Err((MalformedRecord, 1))),
    Case(1, 0, 0, "0300000100010000", Err((MalformedRecord, 1))),
    Case(1, 0, 0, "0300000000010100", Err((MalformedRecord, 1))),
    Case(1, 0, 0, "0300000000010001", Err((MalformedRecord, 1))),
    // places out of turn: a later one, and one twice
    Case(0, 0, 0, "0101000000000000", Err((UndeclaredPlace, 0))),
    Case(1, 0, 0, "0100000000000000", Err((UndeclaredPlace, 1))),
    // undeclared places, first and last, and one that is declared later
    Case(0, 0, 0, "02000000FFFFFFFF", Err((UndeclaredPlace, 0))),
    Case(0, 0, 0, "0300000000000000", Err((UndeclaredPlace, 0))),
    Case(
        1,
        0,
        0,
        "0200000101FFFFFF0101000000000000",
        Err((UndeclaredPlace, 1)),
    ),
    Case(1, 0, 2047, "0300010000000000", Err((UndeclaredPlace, 2048))),
    // FF among the targets is a place that is not declared
    Case(1, 0, 0, "02000001FFFFFFFF", Err((UndeclaredPlace, 1))),
    Case(1, 0, 0, "0200000200FFFFFF", Err((UndeclaredPlace, 1))),
    // a place after transitions and tokens
    Case(1, 1, 1, "01010000000000000201000101FFFFFF", Ok(())),
    // 128 places and the 129th, where it comes in turn and where it does not, at its first and last spot
    Case(128, 0, 0, "", Ok(())),
    Case(128, 0, 0, "0180000000000000", Err((OverLimit, 128))),
    Case(128, 0, 0, "0181000000000000", Err((UndeclaredPlace, 128))),
    Case(128, 0, 1919, "0180000000000000", Err((OverLimit, 2047))),
    // 1,024 transitions and the 1,025th, at its first and last spot
    Case(1, 1024, 0, "", Ok(())),
    Case(1, 1024, 0, "02000000FFFFFFFF", Err((OverLimit, 1025))),
    Case(1, 1024, 1022, "02000000FFFFFFFF", Err((OverLimit, 2047))),
    // 2,048 records and the 2,049th
    Case(1, 0, 2047, "", Ok(())),
    Case(1, 0, 2047, "0300000000000000", Err((OverLimit, 2048))),
    Case(1, 0, 2047, "0101000000000000", Err((OverLimit, 2048))),
    // 4,096 tokens and 4,097, on either side, at the first and last spot
    Case(1, 0, 0, "0300000010000000", Ok(())),
    Case(1, 0, 0, "0300000010010000", Err((TooManyTokens, 1))),
    Case(1, 0, 0, "0301000010010000", Err((TooManyTokens, 1))),
    Case(1, 0, 2046, "0300000010010000", Err((TooManyTokens, 2047))),
    // a crew is the sum over its places, and the sides are apart
    Case(
        2,
        0,
        0,
        "03000000100000000300010000010000",
        Err((TooManyTokens, 3)),
    ),
    Case(1, 0, 0, "03000000100000000301000010000000", Ok(())),
    // sums do not wrap: 4,096 and 61,440 are 65,536
    Case(
        1,
        0,
        0,
        "030000001000000003000000F0000000",
        Err((TooManyTokens, 2)),
    ),
    // two faults in one record: the lower number
    Case(0, 0, 0, "02054000FFFFFFFF", Err((MalformedRecord, 0))),
    Case(0, 0, 0, "03000000FFFF0000", Err((UndeclaredPlace, 0))),
    Case(1, 0, 2047, "0300000010010000", Err((OverLimit, 2048))),
    // two faulty records: the earlier one
    Case(
        0,
        0,
        0,
        "01010000000000000000000000000000",
        Err((UndeclaredPlace, 0)),
    ),
];

// The file of a case.
fn file_of(heap: Global, case: Case) -> Result<Vec<u8>, Fail> {
    let mut file = Vec::new(heap);
    for number in 0..case.0 {
        file.extend_from_slice(&[1, number, 0, 0, 0, 0, 0, 0])?;
    }
    for _ in 0..case.1 {
        file.extend_from_slice(&NO_TARGETS)?;
    }
    for _ in 0..case.2 {
        file.extend_from_slice(&NO_TOKENS)?;
    }
    file.extend_from_slice(hex::decode(heap, case.3)?.as_slice())?;
    Ok(file)
}

// Each file of the table gets its verdict.
#[test]
fn verdicts(rt: HostRuntime) -> Result<(), Fail> {
    for case in CASES {
        let file = file_of(rt.alloc(), case)?;
        let verdict = check(file.as_slice()).map(|_| ());
        let expected = case.4.map_err(|(refusal, spot)| Fault::at(refusal, spot));
        assert_eq!(rt; verdict, expected, "{}", case.3);
    }
    Ok(())
}

// Four places, each with a transition of label 0: 0 to 0, 1 to 2, 2 to 1, and 3 to nothing; then the tokens of both crews.
fn four_places(heap: Global) -> Result<Vec<u8>, FromHexError> {
    hex::decode(
        heap,
        "0100000000000000010100000000000001020000000000000103000000000000\
         0200000100FFFFFF0201000102FFFFFF0202000101FFFFFF02030000FFFFFFFF\
         03000000000200000300030000010000\
         030101000001000003010200000100000301030000010000",
    )
}

// The file net answers by the file's transition records.
#[test]
fn net_of_a_file(rt: HostRuntime) -> Result<(), Fail> {
    let file = four_places(rt.alloc())?;
    let net = FileNet::new(file.as_slice());
    assert_eq!(rt; net.places(), 4);
    assert_eq!(rt; net.transitions(), 4);
    assert_eq!(rt; (net.place(1), net.place(3), net.place(4)), (1, 3, 0));
    assert_eq!(rt; (net.label(0), net.label(4)), (0, 0));
    assert_eq!(rt; (net.total(2), net.total(3)), (1, 0));
    assert_eq!(rt;
        (net.tokens(1, 2), net.tokens(1, 1), net.tokens(1, 4)),
        (1, 0, 0)
    );
    Ok(())
}

// The token records of a file, one after the other.
#[test]
fn tokens_of_a_file(rt: HostRuntime) -> Result<(), Fail> {
    let file = four_places(rt.alloc())?;
    let net = FileNet::new(file.as_slice());
    assert_eq!(rt; net.records(), 13);
    assert_eq!(rt; net.token_record(7), None);
    assert_eq!(rt;
        net.token_record(8),
        Some(Tokens {
            side: 0,
            place: 0,
            count: 2,
        })
    );
    assert_eq!(rt;
        net.token_record(12),
        Some(Tokens {
            side: 1,
            place: 3,
            count: 1,
        })
    );
    assert_eq!(rt; net.token_record(13), None);
    Ok(())
}

// A file that is refused for its crews alone makes an empty net, and has no tokens.
#[test]
fn refused_file(rt: HostRuntime) -> Result<(), Fail> {
    let mut file = four_places(rt.alloc())?;
    file.extend_from_slice(hex::decode(rt.alloc(), "0301030010000000")?.as_slice())?;
    let net = FileNet::new(file.as_slice());
    assert_eq!(rt; (net.places(), net.transitions(), net.records()), (0, 0, 0));
    assert_eq!(rt; (net.place(1), net.total(1), net.tokens(1, 2)), (0, 0, 0));
    assert_eq!(rt; net.token_record(8), None);
    Ok(())
}

// The net of the file, written again: the same records without the tokens, and the bytes behind them as they were.
#[test]
fn written_again(rt: HostRuntime) -> Result<(), Fail> {
    let file = four_places(rt.alloc())?;
    let net = FileNet::new(file.as_slice());
    let mut out = [7u8; 66];
    assert_eq!(rt; write(&net, &mut out), Ok(64));
    assert!(rt; file.len() >= 64);
    assert_eq!(rt; &out[0..64], &file.as_slice()[0..64]);
    assert_eq!(rt; (out[64], out[65]), (7, 7));
    let mut short = [7u8; 63];
    assert_eq!(rt; write(&net, &mut short), Err(Fault::plain(ShortList)));
    assert_eq!(rt; (short[0], short[62]), (7, 7));
    Ok(())
}

// A file is judged by the bytes of 2,049 records.
#[test]
fn bytes_that_judge(rt: HostRuntime) {
    assert_eq!(rt; MOST_BYTES, 16392);
}
