// Partition refinement over a snapshot, stage by stage.
ghost use Rattle.std.specs.Prelude.{◌≡◌, ℕ, ◌<◌, ◌≤◌, Decides, slice_index};
ghost use Rattle.net.specs.Limits.{most_places};
ghost use Rattle.team.specs.Stages.{rounds as rounds_of};
ghost use Rattle.team.specs.Classes.{class_of, ClassedBy};
ghost use Rattle.classing.specs.Staying.{profiles_at, covers, Stays, LowestStay};

use crate::profile::{Profile, describe_all};
use crate::snapshot::Snapshot;
use crate::table::ClassTable;
use net::{MOST_TRANSITIONS, Net};

// A stage: the classes of the places, and by them the profiles of the moves in the snapshot's order.
#[derive(Clone, Copy)]
struct Stage<'a> {
    snapshot: &'a Snapshot,
    table: &'a ClassTable,
    profiles: &'a [Profile; MOST_TRANSITIONS],
}

impl Stage<'_> {
    // The profiles of the moves of a place.
    // Kept: that a place is below 128 is asked by each method, since a type for it would be made anew at each turn of the loops over places.
    fn profiles_of(&self, place: usize) -> &[Profile]
        requires { place < most_places }
        ensures { result.now ≡ profiles_at self.now.snapshot.now self.now.profiles.now place }
    {
        let profiles = self.profiles;
        &profiles[self.snapshot.starts[place]..self.snapshot.starts[place + 1]]
    }

    // Whether the profile of each move of p is that of some move of q.
    fn covers(&self, p: usize, q: usize) -> bool
        requires left { p < most_places }
        requires right { q < most_places }
        ensures { result ≡ covers self.now.snapshot.now self.now.profiles.now p q }
    {
        let others = self.profiles_of(q);
        self.profiles_of(p)
            .iter()
            .all(|profile| others.contains(profile))
    }

    // Whether p and q stay together. Equal profiles in equal order are quick to see.
    fn keeps(&self, p: usize, q: usize) -> bool
        requires left { p < most_places }
        requires right { q < most_places }
        ensures { Decides result (Stays self.now.snapshot.now self.now.profiles.now self.now.table.now.classes p q) }
    {
        if self.table.classes[p] != self.table.classes[q] {
            return false;
        }
        if self.profiles_of(p) == self.profiles_of(q) {
            return true;
        }
        self.covers(p, q) && self.covers(q, p)
    }

    // The lowest place that stays together with p. Only those count that are the lowest of their own new class.
    fn lowest(&self, next: &ClassTable, p: usize) -> usize
        requires known { p < most_places }
        requires low { (q : ℕ) → q ≤ p → slice_index self.now.table.now.classes q ≤ q }
        requires done { (q : ℕ) → q < p → LowestStay self.now.snapshot.now self.now.profiles.now self.now.table.now.classes q (slice_index next.now.classes q) }
        ensures { LowestStay self.now.snapshot.now self.now.profiles.now self.now.table.now.classes p result }
    {
        // Kept: `find` in place of this loop was proved, and side by side the random net of bench/ took 1.53 times the baseline with it and 1.43 with this loop, at a bar of 1.5.
        for q in usize::from(self.table.classes[p])..p {
            if usize::from(next.classes[q]) == q && self.keeps(q, p) {
                return q;
            }
        }
        p
    }

    // Writes the next stage's table.
    fn refine(&self, next: &mut ClassTable)
        requires { (q : ℕ) → q < self.now.snapshot.now.places → slice_index self.now.table.now.classes q ≤ q }
        ensures { (p : ℕ) → p < self.now.snapshot.now.places → LowestStay self.now.snapshot.now self.now.profiles.now self.now.table.now.classes p (slice_index next.new.classes p) }
    {
        // Kept: the classes are written by index, since each is found by those of the lower places, which are written before it.
        for p in 0..self.snapshot.places {
            next.classes[p] = self.lowest(next, p) as u8;
        }
    }
}

// The classes of a net, and the rounds after which they settled.
#[derive(Clone, Copy)]
pub struct Partition {
    pub table: ClassTable,
    pub rounds: usize,
}

impl Partition {
    // Refines from one class until a stage and the next agree.
    pub fn of<N: Net>(net: &N) -> Partition
        ensures classes { ClassedBy (N.Net.meaning net.now) result.table.classes }
        ensures named { (p : ℕ) → p < (N.Net.meaning net.now).places → slice_index result.table.classes p ≡ class_of (N.Net.meaning net.now) p }
        ensures rounds { result.rounds ≡ rounds_of (N.Net.meaning net.now) }
    {
        let snapshot = Snapshot::of(net);
        let mut profiles = [Profile::NONE; MOST_TRANSITIONS];
        let mut table = ClassTable::start();
        let mut next = ClassTable::start();
        let mut rounds: usize = 0;
        // Kept: the stages end where two agree, which no range knows before, and the rounds are what is counted.
        'stages: loop {
            describe_all(&snapshot, &table, &mut profiles);
            let stage = Stage {
                snapshot: &snapshot,
                table: &table,
                profiles: &profiles,
            };
            stage.refine(&mut next);
            if table.agrees(&next, snapshot.places) {
                return Partition { table, rounds };
            }
            table = next;
            rounds += 1;
        }
    }
}
