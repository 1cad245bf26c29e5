//! Nodes that wait until all just before them have a flag.
//!
//! The same structure serves twice: for the nodes that are ready, and, by other flags, for those
//! whose work is what it was. A store marks what the second has until it is empty, so that none is
//! left needs no argument of its own. A node that is done leaves both lines; where it was the last
//! without its flag at its arrival, the departures that may follow are gone over. The second line
//! is empty between calls: a claim and a node given back add no flag, and a node that is out has
//! all before it done.
ghost use Rattle.std.specs.Prelude.{◌≡◌, ◌↔◌, ◌⊎◌, ◌*◌, ◌+◌, ◌<◌, ◌≤◌, ℕ, Bool, IfOk, IsTrue, List, Some, false, get_or, length, slice_get, slice_set, true};
ghost use Rattle.crew_pairing.specs.declared.duty.Duty.{Duty};
ghost use Rattle.crew_ready.specs.Counts as Ready;
ghost use Rattle.crew_resource.specs.Members.{Member};
ghost use Rattle.crew_round.specs.Machinery.Lines.{AreCounted, AreCountsUpTo, Grows, IsDue, IsDueIn, IsDueOf, IsFlagged, IsLine, IsOpen, IsOpenAmong, IsShaped, IsSpot, Stays};
ghost use Rattle.crew_round.specs.Marks.{node_count};
ghost use Rattle.crew_round.specs.declared.mark.Mark.{Mark};
ghost use Rattle.crew_round.specs.declared.mark.Mark.TheVariants.{Done};

use crate::cells::{Cells, is_waiting};
use crate::spot::Spot;
use crew_dirty::Carried;
use crew_net::{Net, Window};
use crew_ready::{Counts, PlaceSet};
use std::alloc::{AllocError, Global};

/// A line of the waiting nodes all before which have a flag, for flags of nodes such as that they
/// are done.
#[derive(Drop)]
pub(crate) struct Line {
    /// Of each base, what keeps its nodes from the line.
    pub(crate) counts: Vec<Counts>,
    /// The places of the nodes in the line.
    pub(crate) set: PlaceSet,
    /// Whether any node may come into it; else only those that aren't touched may.
    pub(crate) any: bool,
}

// Whether the node at a place, of a base and a rank, waits and may come into the line.
fn is_open(
    carried: &Carried,
    cells: &Cells,
    any: bool,
    base: usize,
    offset: usize,
    rank: usize,
) -> bool
    requires offset { offset ≤ 4_294_967_295 }
    requires rank { rank ≤ 4_294_967_295 }
    ensures { IsTrue result ↔ IsOpen cells.now carried.now any base offset rank }
{
    let waits = is_waiting(cells.get(offset + rank));
    let untouched = carried.is_untouched_at(base, rank);
    waits & (any | untouched)
}

// Puts a place in a set where it is told, and leaves it there where it was.
fn put_in(set: &mut PlaceSet, place: usize, told: bool)
    requires { place < length set.old }
    ensures long { length set.new ≡ length set.old }
    ensures there { IsTrue told → get_or set.new place false ≡ true }
    ensures kept { (k : ℕ) → get_or set.old k false ≡ true → get_or set.new k false ≡ true }
    ensures only { (k : ℕ) → get_or set.new k false ≡ true
        → (get_or set.old k false ≡ true) ⊎ ((k ≡ place) × IsTrue told) }
{
    if told {
        set.set(place, true);
    }
}

impl Line {
    // Puts those of some ranks of a base in the line that wait and may come.
    fn put_ranks(
        &mut self,
        ranks: &[u32],
        carried: &Carried,
        cells: &Cells,
        base: usize,
        offset: usize,
    )
        requires offset { offset ≤ 4_294_967_295 }
        requires ranks { (rank : ℕ) → Member ranks.now rank → offset + rank < length self.old.set }
        ensures stays { Stays self.old self.new }
        ensures grows { Grows (IsOpenAmong ranks.now cells.now carried.now self.old.any base offset)
            (IsOpenAmong ranks.now cells.now carried.now self.old.any base offset)
            self.old.set self.new.set }
    {
        let any = self.any;
        for rank in ranks {
            let rank = *rank as usize;
            let told = is_open(carried, cells, any, base, offset, rank);
            put_in(&mut self.set, offset + rank, told);
        }
    }

    // Puts what leaves at a departure in the line, if the departure is clear.
    fn put_departure(
        &mut self,
        net: &Net,
        carried: &Carried,
        cells: &Cells,
        base: usize,
        departure: usize,
    )
        requires departure { departure < length net.now.departures }
        requires base { base < length net.now.bases }
        requires shape { IsShaped net.now self.old }
        ensures stays { Stays self.old self.new }
        ensures grows { (flag : ℕ → Bool) → AreCounted net.now flag self.old
            → Grows (IsDueIn net.now cells.now carried.now self.old.any flag base departure (departure + 1))
            (IsDue net.now cells.now carried.now self.old.any flag base) self.old.set self.new.set }
    {
        let _bases = net.base_count();
        let _arrivals = net.arrivals();
        let offset = base * net.duty_count();
        let clear = self.counts[base].is_clear(departure);
        if clear {
            self.put_ranks(net.leaving(departure), carried, cells, base, offset);
        }
    }

    // Puts what leaves in a window of departures in the line, where they are clear.
    fn put_window(
        &mut self,
        net: &Net,
        carried: &Carried,
        cells: &Cells,
        base: usize,
        window: Window,
    )
        requires ordered { window.from ≤ window.end }
        requires within { window.end ≤ length net.now.departures }
        requires base { base < length net.now.bases }
        requires shape { IsShaped net.now self.old }
        ensures stays { Stays self.old self.new }
        ensures grows { (flag : ℕ → Bool) → AreCounted net.now flag self.old
            → Grows (IsDueIn net.now cells.now carried.now self.old.any flag base window.from window.end)
            (IsDue net.now cells.now carried.now self.old.any flag base) self.old.set self.new.set }
    {
        for departure in window.from..window.end {
            self.put_departure(net, carried, cells, base, departure);
        }
    }

    // Puts all nodes in the line that are due.
    fn fill(&mut self, net: &Net, carried: &Carried, cells: &Cells)
        requires { IsShaped net.now self.old }
        ensures stays { Stays self.old self.new }
        ensures grows { (flag : ℕ → Bool) → AreCounted net.now flag self.old
            → Grows (IsDueOf net.now cells.now carried.now self.old.any flag (length net.now.bases))
            (IsDueOf net.now cells.now carried.now self.old.any flag (length net.now.bases))
            self.old.set self.new.set }
    {
        let window = Window {
            from: 0,
            end: net.departures().len(),
        };
        for base in 0..net.base_count() {
            self.put_window(net, carried, cells, base, window);
        }
    }

    /// The line of the nodes that wait, and may come, all before which have a flag.
    pub(crate) fn of(
        alloc: Global,
        net: &Net,
        carried: &Carried,
        cells: &Cells,
        flags: &[bool],
        any: bool,
    ) -> Result<Line, AllocError>
        requires { length flags.now ≡ node_count net.now }
        ensures any { IfOk result (λ line. line.any ≡ any) }
        ensures line { IfOk result (IsLine net.now carried.now cells.now
            (λ place. get_or flags.now place false)) }
    {
        let _bases = net.base_count();
        let _duties = net.duty_count();
        let counts = counts_of(alloc, net, flags)?;
        let set = PlaceSet::new(alloc, net.len())?;
        let mut line = Line { counts, set, any };
        line.fill(net, carried, cells);
        Ok(line)
    }

    // A node has its flag: answers whether it was the last without where its duty arrives.
    fn count(&mut self, net: &Net, spot: Spot) -> bool
        requires base { spot.base < length net.now.bases }
        requires arrival { spot.arrival < length net.now.arrivals }
        requires spot { (d : Duty) × IsSpot net.now spot d }
        requires shape { IsShaped net.now self.old }
        requires counted { (flag : ℕ → Bool) × AreCounted net.now flag self.old
            × (flag spot.place ≡ false) }
        ensures shape { IsShaped net.now self.new }
        ensures set { self.new.set ≡ self.old.set }
        ensures any { self.new.any ≡ self.old.any }
        ensures counted { (flag next : ℕ → Bool) (d : Duty) → AreCounted net.now flag self.old
            → IsSpot net.now spot d → IsFlagged flag next spot.place true
            → AreCounted net.now next self.new }
        ensures last { (counts : Ready.Counts)
            → slice_get self.new.counts.items spot.base ≡ Some counts
            → (IsTrue result ↔ (get_or counts.undone spot.arrival 0 ≡ 0)) }
    {
        let _arrivals = net.arrivals();
        let counts = &mut self.counts[spot.base];
        counts.done(net, spot.arrival)
    }

    // A node has its flag, which may bring others into the line.
    fn flag(&mut self, net: &Net, carried: &Carried, cells: &Cells, spot: Spot)
        requires spot { (d : Duty) × IsSpot net.now spot d }
        requires shape { IsShaped net.now self.old }
        requires counted { (flag : ℕ → Bool) × AreCounted net.now flag self.old
            × (flag spot.place ≡ false) }
        ensures any { self.new.any ≡ self.old.any }
        ensures line { (flag next : ℕ → Bool) → IsLine net.now carried.now cells.now flag self.old
            → IsFlagged flag next spot.place true
            → IsLine net.now carried.now cells.now next self.new }
    {
        let _departures = net.departures();
        let _arrivals = net.arrivals();
        let last = self.count(net, spot);
        if last {
            self.put_window(net, carried, cells, spot.base, net.followers(spot.arrival));
        }
    }

    /// A node is done, with or without its flag: it leaves the line, and may bring others in.
    pub(crate) fn pass(
        &mut self,
        net: &Net,
        carried: &Carried,
        cells: &Cells,
        spot: Spot,
        flagged: bool,
    )
        requires spot { (d : Duty) × IsSpot net.now spot d }
        requires shape { IsShaped net.now self.old }
        requires counted { (flag : ℕ → Bool) × AreCounted net.now flag self.old
            × (flag spot.place ≡ false) }
        ensures any { self.new.any ≡ self.old.any }
        ensures line { (was : List Mark) (flag next : ℕ → Bool)
            → IsLine net.now carried.now was flag self.old
            → cells.now ≡ slice_set was spot.place Done → spot.place < length was
            → IsFlagged flag next spot.place flagged
            → IsLine net.now carried.now cells.now next self.new }
    {
        self.set.set(spot.place, false);
        if flagged {
            self.flag(net, carried, cells, spot);
        }
    }
}

// What each base counts, where these nodes have their flags.
fn counts_of(alloc: Global, net: &Net, flags: &[bool]) -> Result<Vec<Counts>, AllocError>
    requires { length flags.now ≡ node_count net.now }
    ensures { IfOk result (AreCountsUpTo net.now flags.now (length net.now.bases)) }
{
    let count = net.duty_count();
    let mut all = Vec::with_capacity(alloc, net.base_count())?;
    for base in 0..net.base_count() {
        let start = base * count;
        all.push(Counts::of(alloc, net, &flags[start..start + count])?)?;
    }
    Ok(all)
}
