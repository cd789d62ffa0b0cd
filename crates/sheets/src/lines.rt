// The lines of a sheet that are not modal.
ghost use Rattle.std.specs.Prelude.{◌≡◌};
ghost use Rattle.sheets.specs.Lines.{everywhere as everywhere_line, negated, joint, naming, plain_line};

use formulas::{Kind, Line, Pair};

// The line that holds everywhere.
pub(crate) fn everywhere() -> Line
    ensures { result ≡ everywhere_line }
{
    plain(Kind::Everywhere, Pair::default(), Pair::default())
}

// The line that holds where line a does not.
pub(crate) fn negation(a: u16) -> Line
    ensures { result ≡ negated a }
{
    plain(Kind::Negation, name(a), Pair::default())
}

// The line that holds where the lines a and b both do.
pub(crate) fn conjunction(a: u16, b: u16) -> Line
    ensures { result ≡ joint a b }
{
    plain(Kind::Conjunction, name(a), name(b))
}

// A pair that does no more than name line a.
fn name(a: u16) -> Pair
    ensures { result ≡ naming a }
{
    Pair { line: a, count: 0 }
}

// A line that does no more than name the lines of two pairs.
fn plain(kind: Kind, first: Pair, second: Pair) -> Line
    ensures { result ≡ plain_line kind first second }
{
    Line {
        kind: kind.number(),
        label: 0,
        total: 0,
        used: 0,
        pairs: [first, second, Pair::default(), Pair::default()],
    }
}
