// The bench of a file: its net, with its two crews on it.
ghost use Rattle.std.specs.Prelude.{◌≡◌};
ghost use Rattle.records.specs.File.{net_of};
ghost use Rattle.crews.specs.Benches.{crews_held};
ghost use Rattle.report.specs.Reports.{crews_of};

use crews::Bench;
use records::FileNet;

// The token records are put on the bench one after the other, and none of them is refused. Empty where the check refuses the bytes.
pub(crate) fn bench_of<'a>(bytes: &'a [u8]) -> Bench<FileNet<'a>>
    ensures same { result.net.bytes.now ≡ bytes.now }
    ensures crews { crews_held (net_of bytes.now) result ≡ crews_of bytes.now }
{
    let net = FileNet::new(bytes);
    let mut bench = Bench::new(net);
    // Kept: each record is asked by its number. A chain by `filter_map` is no plainer: it drops the number, by which the contracts count the crews after so many records.
    for k in 0..net.records() {
        if let Some(tokens) = net.token_record(k) {
            let _ = bench.put(tokens.side, tokens.place, tokens.count);
        }
    }
    bench
}
