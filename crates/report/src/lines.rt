// The texts of a report. Each function writes at the end of the page.
// Kept: each text is pushed part by part and not by `write!` of a type with Display: the contracts of fmt speak of success alone, and a report's text is promised for every file.
// Kept: the two clauses of each function, since a trait that says them once, by the text as a ghost member, would want a type for each text.
ghost use Rattle.std.specs.Prelude.{◌≡◌, ◌++◌};
ghost use Rattle.report.specs.Text.{swap_line, swap_lines, alike_text, apart_text, spot_field, refused_text};
ghost use Rattle.report.specs.Pages.{HasRoom};

use crate::writing::{Page, end_line, put_field, put_number};
use crews::{Difference, Swap};
use net::Fault;

// The line of one entry of a swap list.
fn put_swap(page: &mut Page, swap: Swap)
    requires { HasRoom page.old (swap_line swap) }
    ensures { page.new.bytes ≡ page.old.bytes ++ swap_line swap }
{
    put_number(page, usize::from(swap.left));
    put_field(page, usize::from(swap.right));
    put_field(page, usize::from(swap.count));
    end_line(page);
}

// The lines of a swap list.
#[tactic(auto, using(crate::proofs::SwapLines::swap_lines_step))]
fn put_swaps(page: &mut Page, list: &[Swap])
    requires { HasRoom page.old (swap_lines list.now) }
    ensures { page.new.bytes ≡ page.old.bytes ++ swap_lines list.now }
{
    for swap in list {
        put_swap(page, *swap);
    }
}

// The crews are ALIKE, with this swap list.
pub(crate) fn put_alike(page: &mut Page, list: &[Swap])
    requires { HasRoom page.old (alike_text list.now) }
    ensures { page.new.bytes ≡ page.old.bytes ++ alike_text list.now }
{
    page.push_str("ALIKE\n");
    put_swaps(page, list);
}

// The crews are APART, by this difference.
pub(crate) fn put_apart(page: &mut Page, by: Difference)
    requires { HasRoom page.old (apart_text by) }
    ensures { page.new.bytes ≡ page.old.bytes ++ apart_text by }
{
    page.push_str("APART");
    put_field(page, by.class);
    put_field(page, usize::from(by.left));
    put_field(page, usize::from(by.right));
    end_line(page);
}

// A spot behind a blank, where there is one.
fn put_spot(page: &mut Page, spot: Option<usize>)
    requires { HasRoom page.old (spot_field spot) }
    ensures { page.new.bytes ≡ page.old.bytes ++ spot_field spot }
{
    if let Some(number) = spot {
        put_field(page, number);
    }
}

// The file is refused, with this fault.
pub(crate) fn put_refused(page: &mut Page, fault: Fault)
    requires { HasRoom page.old (refused_text fault) }
    ensures { page.new.bytes ≡ page.old.bytes ++ refused_text fault }
{
    page.push_str("REFUSED");
    put_field(page, usize::from(fault.refusal.number()));
    put_spot(page, fault.spot);
    end_line(page);
}
