// Numbers and line ends, written at the end of the text of a report.
ghost use Rattle.std.specs.Prelude.{◌≡◌, ◌++◌, codes, decimal};
ghost use Rattle.report.specs.Text.{field};
ghost use Rattle.report.specs.Pages.{HasRoom};

use crate::file_report::REPORT_SIZE;
use arrayvec::ArrayString;
use itoa::Buffer;

// The text of a report as it is written, in a room that is enough for each report.
pub(crate) type Page = ArrayString<REPORT_SIZE>;

// A number in decimal, with no zero in front.
pub(crate) fn put_number(page: &mut Page, n: usize)
    requires { HasRoom page.old (decimal n) }
    ensures { page.new.bytes ≡ page.old.bytes ++ decimal n }
{
    let mut buffer = Buffer::new();
    page.push_str(buffer.format(n));
}

// A number behind a blank.
pub(crate) fn put_field(page: &mut Page, n: usize)
    requires { HasRoom page.old (field n) }
    ensures { page.new.bytes ≡ page.old.bytes ++ field n }
{
    page.push_str(" ");
    put_number(page, n);
}

// The end of a line.
pub(crate) fn end_line(page: &mut Page)
    requires { HasRoom page.old (codes "\n") }
    ensures { page.new.bytes ≡ page.old.bytes ++ codes "\n" }
{
    page.push_str("\n");
}
