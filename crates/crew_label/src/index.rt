//! An index of labels by their marks.
//!
//! Where both lists have 32 labels or more, labels that may stand for another are looked up here:
//! places are cut in two where marks at some 64 of them lie the furthest from each other, again and
//! again, into groups of at most 256 and these into blocks of at most 16, each with the least marks
//! of its entries. A group, block or entry with a mark above the label's is passed over. What the
//! index finds is proved to be what trying each label finds, whatever the cuts are: where to cut is
//! not proved, and may be done otherwise at no cost in proof.
ghost use Rattle.std.specs.Prelude.{◌≡◌, ◌<◌, ◌∷◌, [], true, ℕ, length, IfOk, OnOk};
ghost use Rattle.crew_label.specs.Machinery.Marks.{are_at_most};
ghost use Rattle.std.specs.List.{list_any};
ghost use Rattle.crew_resource.specs.Members.{Member};
ghost use Rattle.crew_forgetful.specs.Sweeps.{TellCount};
ghost use Rattle.crew_label.specs.Machinery.Indexes.{IsGrouped, IsHeld, IsPlaced, entries_from, finds_block, finds_entry, finds_group, test_at};
ghost use Rattle.crew_label.specs.Machinery.Rules.{same_by};
ghost use Rattle.crew_label.specs.Machinery.Seeing.{AreMarked, labels_of};
ghost use Rattle.crew_label.specs.Pools.{AreCounted, IsCounted, stands_label};
ghost use Rattle.crew_label.specs.declared.blocks.Block.{Block};
ghost use Rattle.crew_label.specs.declared.blocks.Entry.{Entry};

use crate::blocks::{Block, Entry, blocks_of, least_of_blocks};
use crate::label::Label;
use crate::marks::are_at_most;
use crate::parts::{CUTS, divide, spread_of};
use crate::seen::{Seen, seen_at};
use crate::stand::{Rule, may_stand};
use crate::trails::Trails;
use crew_forgetful::{Forgets, Marked};
use crew_resource::{Placed, Resource};
use std::alloc::{AllocError, Global};
use std::sync::atomic::{AtomicUsize, Ordering};

// How many entries a group and a block have at most, but where marks are alike.
const GROUP: usize = 256;

const BLOCK: usize = 16;

/// Blocks that lie near each other, and marks that are at most those of each entry.
#[derive(Drop)]
pub(crate) struct Group {
    pub(crate) least: [i32; 16],
    pub(crate) blocks: Vec<Block>,
}

// All places of a list.
fn places_of<V>(alloc: Global, list: &[Seen<'_, V>]) -> Result<Vec<usize>, AllocError>
    ensures { IfOk result (λ places. (k : ℕ) → k < length list.now → Member places.items k) }
{
    let mut places = Vec::with_capacity(alloc, list.len())?;
    for place in 0..list.len() {
        places.push(place)?;
    }
    Ok(places)
}

// The blocks of what is seen at some places.
fn group_of<V>(alloc: Global, list: &[Seen<'_, V>], places: Vec<usize>) -> Result<Group, AllocError>
    ensures least { IfOk result (λ group. (b : Block) → Member group.blocks.items b
        → are_at_most group.least b.least ≡ true) }
    ensures held { IfOk result (λ group. (e : Entry)
        → Member (entries_from (λ s. s.marks.now) 0 list.now) e → Member places.items e.place
        → IsHeld group.blocks.items e) }
{
    let spread = spread_of(list, &places);
    let mut parts = Vec::new(alloc);
    divide(alloc, BLOCK, CUTS, &spread, list, places, &mut parts)?;
    let blocks = blocks_of(alloc, list, &parts)?;
    let least = least_of_blocks(&blocks);
    Ok(Group { least, blocks })
}

// Puts the group of what is seen at some places at the end of some.
fn push_group<V>(
    alloc: Global,
    groups: &mut Vec<Group>,
    list: &[Seen<'_, V>],
    places: Vec<usize>,
) -> Result<(), AllocError>
    ensures held { OnOk result ((e : Entry) → Member (entries_from (λ s. s.marks.now) 0 list.now) e
        → Member places.items e.place → IsGrouped groups.new.items e) }
    ensures stays { OnOk result ((e : Entry) → IsGrouped groups.old.items e
        → IsGrouped groups.new.items e) }
{
    let group = group_of(alloc, list, places)?;
    groups.push(group)?;
    Ok(())
}

// The groups of some parts.
fn groups_of<V>(
    alloc: Global,
    list: &[Seen<'_, V>],
    parts: Vec<Vec<usize>>,
) -> Result<Vec<Group>, AllocError>
    ensures { IfOk result (λ groups. (e : Entry)
        → Member (entries_from (λ s. s.marks.now) 0 list.now) e → IsPlaced parts.items e.place
        → IsGrouped groups.items e) }
{
    let mut groups = Vec::with_capacity(alloc, parts.len())?;
    for part in parts {
        push_group(alloc, &mut groups, list, part)?;
    }
    Ok(groups)
}

// What is seen, in groups of blocks by marks.
//
// The list is cut by places, and the entries of a block are written once, when no cut is left.
pub(crate) fn groups_by_marks<R: Resource>(
    alloc: Global,
    list: &[Seen<'_, R::Value>],
) -> Result<Vec<Group>, AllocError>
    ensures { IfOk result (λ groups. (e : Entry) → Member (entries_from (λ s. s.marks.now) 0 list.now) e
        → IsGrouped groups.items e) }
{
    let places = places_of(alloc, list)?;
    let spread = spread_of(list, &places);
    let mut parts = Vec::new(alloc);
    divide(alloc, GROUP, CUTS, &spread, list, places, &mut parts)?;
    let groups = groups_of(alloc, list, parts)?;
    Ok(groups)
}

// What is asked of an index: whether one of its labels, at marks of at most so much, may stand for
// a label. The hint is the place of one that stood for an earlier label; any place serves.
#[derive(Drop)]
pub(crate) struct Asked<'a, 'r, R: Resource, T> {
    pub(crate) resource: &'r R,
    pub(crate) trails: &'r T,
    pub(crate) rule: Rule,
    pub(crate) others: &'a [Seen<'a, R::Value>],
    pub(crate) label: &'a Label<R::Value>,
    pub(crate) most: &'a [i32; 16],
    pub(crate) hint: &'a AtomicUsize,
}

// Whether the label at a place may stand.
fn may_stand_at<P: Placed, R: Forgets<P>, T: Trails>(
    asked: &Asked<'_, '_, R, T>,
    place: usize,
) -> bool
    requires tell { TellCount R.same_sums (R.count_of asked.now.resource.now) }
    requires counted { AreCounted (R.count_of asked.now.resource.now) (T.leads asked.now.trails.now)
        (T.trail asked.now.trails.now) (labels_of asked.now.others.now) }
    requires label { IsCounted (R.count_of asked.now.resource.now) (T.leads asked.now.trails.now)
        (T.trail asked.now.trails.now) asked.now.label.now }
    ensures { result ≡ (test_at R.below R.same_sums
        (T.trail asked.now.trails.now) asked.now.rule asked.now.others.now asked.now.label.now) place }
{
    match seen_at(asked.others, place) {
        None => false,
        Some(held) => {
            may_stand::<P, R, T>(
                asked.resource,
                asked.trails,
                asked.rule,
                held.label,
                asked.label,
            )
        }
    }
}

// Whether an entry's label may stand.
fn finds_entry<P: Placed, R: Forgets<P>, T: Trails>(
    asked: &Asked<'_, '_, R, T>,
    entry: &Entry,
) -> bool
    requires tell { TellCount R.same_sums (R.count_of asked.now.resource.now) }
    requires counted { AreCounted (R.count_of asked.now.resource.now) (T.leads asked.now.trails.now)
        (T.trail asked.now.trails.now) (labels_of asked.now.others.now) }
    requires label { IsCounted (R.count_of asked.now.resource.now) (T.leads asked.now.trails.now)
        (T.trail asked.now.trails.now) asked.now.label.now }
    ensures { result ≡ finds_entry (test_at R.below R.same_sums
        (T.trail asked.now.trails.now) asked.now.rule asked.now.others.now asked.now.label.now) asked.now.most.now entry.now }
{
    let found = are_at_most(&entry.marks, asked.most)
        && may_stand_at::<P, R, T>(asked, entry.place);
    if found {
        asked.hint.store(entry.place, Ordering::Relaxed);
    }
    found
}

// Whether one of some entries' labels may.
fn in_entries<P: Placed, R: Forgets<P>, T: Trails>(
    asked: &Asked<'_, '_, R, T>,
    entries: &[Entry],
) -> bool
    requires tell { TellCount R.same_sums (R.count_of asked.now.resource.now) }
    requires counted { AreCounted (R.count_of asked.now.resource.now) (T.leads asked.now.trails.now)
        (T.trail asked.now.trails.now) (labels_of asked.now.others.now) }
    requires label { IsCounted (R.count_of asked.now.resource.now) (T.leads asked.now.trails.now)
        (T.trail asked.now.trails.now) asked.now.label.now }
    ensures { result ≡ list_any (finds_entry (test_at R.below R.same_sums
        (T.trail asked.now.trails.now) asked.now.rule asked.now.others.now asked.now.label.now) asked.now.most.now) entries.now }
{
    for entry in entries {
        if finds_entry::<P, R, T>(asked, entry) {
            return true;
        }
    }
    false
}

// Whether one of a block's labels may.
fn finds_block<P: Placed, R: Forgets<P>, T: Trails>(
    asked: &Asked<'_, '_, R, T>,
    block: &Block,
) -> bool
    requires tell { TellCount R.same_sums (R.count_of asked.now.resource.now) }
    requires counted { AreCounted (R.count_of asked.now.resource.now) (T.leads asked.now.trails.now)
        (T.trail asked.now.trails.now) (labels_of asked.now.others.now) }
    requires label { IsCounted (R.count_of asked.now.resource.now) (T.leads asked.now.trails.now)
        (T.trail asked.now.trails.now) asked.now.label.now }
    ensures { result ≡ finds_block (test_at R.below R.same_sums
        (T.trail asked.now.trails.now) asked.now.rule asked.now.others.now asked.now.label.now) asked.now.most.now block.now }
{
    are_at_most(&block.least, asked.most) && in_entries::<P, R, T>(asked, &block.entries)
}

// Whether one of some blocks' labels may.
fn in_blocks<P: Placed, R: Forgets<P>, T: Trails>(
    asked: &Asked<'_, '_, R, T>,
    blocks: &[Block],
) -> bool
    requires tell { TellCount R.same_sums (R.count_of asked.now.resource.now) }
    requires counted { AreCounted (R.count_of asked.now.resource.now) (T.leads asked.now.trails.now)
        (T.trail asked.now.trails.now) (labels_of asked.now.others.now) }
    requires label { IsCounted (R.count_of asked.now.resource.now) (T.leads asked.now.trails.now)
        (T.trail asked.now.trails.now) asked.now.label.now }
    ensures { result ≡ list_any (finds_block (test_at R.below R.same_sums
        (T.trail asked.now.trails.now) asked.now.rule asked.now.others.now asked.now.label.now) asked.now.most.now) blocks.now }
{
    for block in blocks {
        if finds_block::<P, R, T>(asked, block) {
            return true;
        }
    }
    false
}

// Whether one of a group's labels may.
fn finds_group<P: Placed, R: Forgets<P>, T: Trails>(
    asked: &Asked<'_, '_, R, T>,
    group: &Group,
) -> bool
    requires tell { TellCount R.same_sums (R.count_of asked.now.resource.now) }
    requires counted { AreCounted (R.count_of asked.now.resource.now) (T.leads asked.now.trails.now)
        (T.trail asked.now.trails.now) (labels_of asked.now.others.now) }
    requires label { IsCounted (R.count_of asked.now.resource.now) (T.leads asked.now.trails.now)
        (T.trail asked.now.trails.now) asked.now.label.now }
    ensures { result ≡ finds_group (test_at R.below R.same_sums
        (T.trail asked.now.trails.now) asked.now.rule asked.now.others.now asked.now.label.now) asked.now.most.now group.now }
{
    are_at_most(&group.least, asked.most) && in_blocks::<P, R, T>(asked, &group.blocks)
}

// Whether one of some groups' labels may.
fn in_groups<P: Placed, R: Forgets<P>, T: Trails>(
    asked: &Asked<'_, '_, R, T>,
    groups: &[Group],
) -> bool
    requires tell { TellCount R.same_sums (R.count_of asked.now.resource.now) }
    requires counted { AreCounted (R.count_of asked.now.resource.now) (T.leads asked.now.trails.now)
        (T.trail asked.now.trails.now) (labels_of asked.now.others.now) }
    requires label { IsCounted (R.count_of asked.now.resource.now) (T.leads asked.now.trails.now)
        (T.trail asked.now.trails.now) asked.now.label.now }
    ensures { result ≡ list_any (finds_group (test_at R.below R.same_sums
        (T.trail asked.now.trails.now) asked.now.rule asked.now.others.now asked.now.label.now) asked.now.most.now) groups.now }
{
    for group in groups {
        if finds_group::<P, R, T>(asked, group) {
            return true;
        }
    }
    false
}

// Whether the label that the hint tells may stand.
fn stands_by_hint<P: Placed, R: Forgets<P>, T: Trails>(asked: &Asked<'_, '_, R, T>) -> bool
    requires tell { TellCount R.same_sums (R.count_of asked.now.resource.now) }
    requires counted { AreCounted (R.count_of asked.now.resource.now) (T.leads asked.now.trails.now)
        (T.trail asked.now.trails.now) (labels_of asked.now.others.now) }
    requires label { IsCounted (R.count_of asked.now.resource.now) (T.leads asked.now.trails.now)
        (T.trail asked.now.trails.now) asked.now.label.now }
    ensures { result ≡ true → list_any
        (λ s. stands_label R.below (same_by R.below R.same_sums asked.now.rule)
        (T.trail asked.now.trails.now) s.label.now asked.now.label.now) asked.now.others.now ≡ true }
{
    let place = asked.hint.load(Ordering::Relaxed);
    let Some(held) = seen_at(asked.others, place) else {
        return false;
    };
    are_at_most(held.marks, asked.most) && may_stand_at::<P, R, T>(asked, place)
}

// Whether a label of those that an index has may stand for another label. The one that stood for the
// label before is asked first: labels come in order, and neighbours mostly fall to the same one.
pub(crate) fn is_reached_by<P: Placed, R: Marked<P>, T: Trails>(
    resource: &R,
    trails: &T,
    rule: Rule,
    groups: &[Group],
    others: &[Seen<'_, R::Value>],
    seen: &Seen<'_, R::Value>,
    hint: &AtomicUsize,
) -> bool
    requires tell { TellCount R.same_sums (R.count_of resource.now) }
    requires groups { (e : Entry) → Member (entries_from (λ s. s.marks.now) 0 others.now) e
        → IsGrouped groups.now e }
    requires told { AreMarked (R.marks_of resource.now) (seen.now ∷ []) others.now }
    requires counted { AreCounted (R.count_of resource.now) (T.leads trails.now)
        (T.trail trails.now) (labels_of others.now) }
    requires label { IsCounted (R.count_of resource.now) (T.leads trails.now)
        (T.trail trails.now) seen.now.label.now }
    ensures { result ≡ list_any
        (λ s. stands_label R.below (same_by R.below R.same_sums rule) (T.trail trails.now)
        s.label.now seen.now.label.now) others.now }
{
    let asked = Asked {
        resource,
        trails,
        rule,
        others,
        label: seen.label,
        most: seen.marks,
        hint,
    };
    if stands_by_hint::<P, R, T>(&asked) {
        return true;
    }
    in_groups::<P, R, T>(&asked, groups)
}
