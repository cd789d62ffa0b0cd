// One line of a sheet, and which lines are lawful.
ghost use Rattle.std.specs.Prelude.{◌≡◌, ◌↔◌, IsTrue};
ghost use Rattle.formulas.specs.Kind.{number_of};
ghost use Rattle.formulas.specs.Lines.{used_pairs, LawfulPair, LawfulHead, LawfulPairs, LawfulLine, FirstUnlawful};

use crate::kind::Kind;
use net::{MOST_LABEL, MOST_TOTAL};

// A sheet has so many lines at most.
pub const MOST_LINES: usize = 512;

// A line has so many pairs, one for each token that a transition can put down.
pub const MOST_PAIRS: usize = MOST_TOTAL as usize;

// A line that another one names, and how many tokens are put where it holds.
#[derive(Clone, Copy, PartialEq, Eq, Debug, Default)]
pub struct Pair {
    pub line: u16,
    pub count: u8,
}

// A formula. Its kind says where it holds, and which of the other fields it uses.
#[derive(Clone, Copy, PartialEq, Eq, Debug)]
pub struct Line {
    // Kept: the number of a kind and no `Kind`, since a sheet may hold lines of unlawful kinds, and those must be there to be refused.
    pub kind: u8,
    pub label: u8,
    pub total: u8,
    // Kept: how many pairs are used, as a number beside them: it may be one that no line can use, and that must be there to be refused.
    pub used: u8,
    pub pairs: [Pair; MOST_PAIRS],
}

impl Line {
    // The pairs that the line uses: its first ones, as many as it says, and all where it says more than there are.
    pub fn used_pairs(&self) -> &[Pair]
        ensures { result.now ≡ used_pairs self.now }
    {
        self.pairs
            .get(..usize::from(self.used))
            .unwrap_or(&self.pairs)
    }

    // Whether the line may stand at the number `at`: it names only lines before it, keeps the limits, and what it does not use is 0.
    pub fn is_lawful(&self, at: usize) -> bool
        ensures { IsTrue result ↔ (LawfulLine at self.now) }
    {
        let Ok(kind) = Kind::try_from(self.kind) else {
            return false;
        };
        self.has_lawful_head(kind) && self.has_lawful_pairs(kind, at)
    }

    // Whether what stands before the pairs keeps the limits of the line's kind.
    fn has_lawful_head(&self, kind: Kind) -> bool
        requires { number_of kind ≡ self.now.kind }
        ensures { IsTrue result ↔ (LawfulHead self.now) }
    {
        self.label <= kind.modal_only(MOST_LABEL)
            && self.total <= kind.modal_only(MOST_TOTAL)
            && self.used <= kind.modal_only(MOST_TOTAL)
    }

    // Whether the pairs that a line of the kind names are lawful, and the others 0.
    fn has_lawful_pairs(&self, kind: Kind, at: usize) -> bool
        requires { number_of kind ≡ self.now.kind }
        ensures { IsTrue result ↔ (LawfulPairs at self.now) }
    {
        let used = usize::from(kind.named_pairs(self.used));
        let most = kind.modal_only(MOST_TOTAL);
        self.pairs
            .iter()
            .enumerate()
            .all(|(k, pair)| is_lawful_pair(at, used, most, pair, k))
    }
}

// Whether pair k names a line below `at` with a count up to `most`, if it is used, and is 0 if not.
fn is_lawful_pair(at: usize, used: usize, most: u8, pair: &Pair, k: usize) -> bool
    ensures { IsTrue result ↔ (LawfulPair at used most k pair.now) }
{
    if k < used {
        usize::from(pair.line) < at && pair.count <= most
    } else {
        *pair == Pair::default()
    }
}

// The number of the first line that is not lawful, if there is one.
pub fn first_unlawful(sheet: &[Line]) -> Option<usize>
    ensures { FirstUnlawful sheet.now result }
{
    sheet
        .iter()
        .enumerate()
        .position(|(i, line)| !line.is_lawful(i))
}
