// What a transition does to the classes of a stage.
ghost use Rattle.std.specs.Prelude.{◌≡◌};
ghost use Rattle.classing.specs.Profiles.{class_at, ProfileOf, Described};

use crate::snapshot::{Move, Snapshot};
use crate::table::ClassTable;
use net::{MOST_TRANSITIONS, NO_TARGET, WIDTH};

// The label of a transition and the classes of its targets in rising order: two transitions match exactly when these are equal.
#[derive(Clone, Copy, PartialEq, Eq)]
pub struct Profile {
    label: u8,
    classes: [u8; WIDTH],
}

impl Profile {
    // The profile of a transition that puts down nothing.
    pub const NONE: Profile = Profile {
        label: 0,
        classes: [NO_TARGET; WIDTH],
    };
}

// The class of a target, which is none where there is no target.
fn class_at(table: &ClassTable, target: u8) -> u8
    ensures { result ≡ class_at table.now.classes target }
{
    table
        .classes
        .get(usize::from(target))
        .copied()
        .unwrap_or(NO_TARGET)
}

// Writes the profile of one move.
// Kept: it is written where it stays. Profiles that are handed back were proved, by `map` of the targets and by a list of their own, and with them a net of many transitions takes 1.4 times as long.
fn describe(this: &Move, table: &ClassTable, profile: &mut Profile)
    ensures { ProfileOf table.now.classes this.now profile.new }
{
    profile.label = this.label;
    for (j, class) in profile.classes.iter_mut().enumerate() {
        *class = class_at(table, this.targets[j]);
    }
    profile.classes.sort_unstable();
}

// Writes the profile of each move, in the snapshot's order.
pub(crate) fn describe_all(
    snapshot: &Snapshot,
    table: &ClassTable,
    profiles: &mut [Profile; MOST_TRANSITIONS],
)
    ensures { Described snapshot.now table.now.classes profiles.new }
{
    // Kept: the order is read by index, since no contract knows what a `zip` with `iter_mut` writes.
    for (k, profile) in profiles[..snapshot.count].iter_mut().enumerate() {
        describe(
            &snapshot.moves[usize::from(snapshot.order[k])],
            table,
            profile,
        );
    }
}
