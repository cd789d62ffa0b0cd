// The report of a file.
ghost use Rattle.std.specs.Prelude.{◌≡◌, ◌++◌};
ghost use Rattle.report.specs.Pages.{HasRoom};
ghost use Rattle.report.specs.Reports.{OneText};
ghost use Rattle.report.specs.Reporting.{Reported, Judges, verdict_text, text_of};

use crate::file_bench::bench_of;
use crate::lines::{put_alike, put_apart, put_refused};
use crate::writing::Page;
use crews::{MOST_SWAPS, Swap, SwapList, Verdict};
use net::{Fault, Refusal};
use records::check;

// Every report fits into so many bytes.
pub const REPORT_SIZE: usize = 4096;

// The verdict on the crews of a file, with the swap list at the front of the entries, or the fault of a file that the check refuses.
// Kept: a verdict beside its entries, as `compare` leaves them: `perform` gives both as an answer, three cases of which cannot come here.
fn judge(bytes: &[u8], entries: &mut [Swap; MOST_SWAPS]) -> Result<Verdict, Fault>
    ensures { Judges bytes.now entries.new result }
{
    check(bytes)?;
    bench_of(bytes).compare(entries)
}

// The text of a verdict.
fn put_verdict(page: &mut Page, entries: [Swap; MOST_SWAPS], verdict: Verdict)
    requires { HasRoom page.old (verdict_text entries verdict) }
    ensures { page.new.bytes ≡ page.old.bytes ++ verdict_text entries verdict }
{
    match verdict {
        Verdict::Alike { used } => {
            let list = SwapList { entries, used };
            put_alike(page, list.swaps());
        }
        Verdict::Apart(by) => put_apart(page, by),
    }
}

// The text of a verdict, or of the fault where the file is refused.
fn put_judged(page: &mut Page, entries: [Swap; MOST_SWAPS], judged: Result<Verdict, Fault>)
    requires { HasRoom page.old (text_of entries judged) }
    ensures { page.new.bytes ≡ page.old.bytes ++ text_of entries judged }
{
    match judged {
        Ok(verdict) => put_verdict(page, entries, verdict),
        Err(fault) => put_refused(page, fault),
    }
}

// Writes the report of a file over the front of the caller's bytes, and answers how many bytes it has. The bytes behind it stay as they were.
// Refused where the caller's bytes are fewer than REPORT_SIZE; then they all stay as they were.
// Kept: the text goes into the caller's bytes, with its length as the answer, since no call of the library takes memory.
#[tactic(auto, using(crate::proofs::OneText::one_text))]
pub fn report(bytes: &[u8], out: &mut [u8]) -> Result<usize, Fault>
    ensures reported { Reported bytes.now out.old out.new result }
    ensures one { OneText }
{
    if out.len() < REPORT_SIZE {
        return Err(Fault::plain(Refusal::ShortList));
    }
    let mut entries = [Swap::default(); MOST_SWAPS];
    let judged = judge(bytes, &mut entries);
    let mut page = Page::new();
    put_judged(&mut page, entries, judged);
    let text = page.as_str().as_bytes();
    out[..text.len()].copy_from_slice(text);
    Ok(text.len())
}
