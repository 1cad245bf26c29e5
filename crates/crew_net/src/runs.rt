//! Keys that stand in runs: duties in order of key leave in such, one for each first flight.

ghost use Rattle.std.specs.Prelude.{◌≡◌, ◌≤◌, ◌<◌, IfOk, IsPermutation, length};
ghost use Rattle.std.specs.List.{flat_map};
ghost use Rattle.crew_net.specs.Machinery.Runs as Spec;
ghost use Rattle.crew_net.specs.Machinery.Runs.{IsRunOf};
ghost use Rattle.crew_resource.specs.Members.{Each};

use std::alloc::{AllocError, Global};

/// Keys that stand side by side, from a place up to another, and the first of them.
#[derive(Clone, Copy, PartialEq, Eq, PartialOrd, Ord)]
pub(crate) struct Run {
    pub(crate) first: u128,
    pub(crate) from: u32,
    pub(crate) end: u32,
}

// Whether a key is the next number after the one before it.
fn goes_on(keys: &[u128], place: usize) -> bool
    requires from { 1 ≤ place }
    requires within { place < length keys.now }
{
    keys[place] == keys[place - 1].wrapping_add(1)
}

// The runs of some keys.
fn runs_of(alloc: Global, keys: &[u128]) -> Result<Vec<Run>, AllocError>
    requires { length keys.now ≤ 200_000 }
    ensures whole { IfOk result (λ runs. flat_map (Spec.run_keys keys.now) runs.items ≡ keys.now) }
    ensures within { IfOk result (λ runs. Each (IsRunOf (length keys.now)) runs.items) }
{
    let mut runs = Vec::new(alloc);
    let mut from = 0;
    for place in 1..keys.len() {
        if !goes_on(keys, place) {
            runs.push(Run {
                first: keys[from],
                from: from as u32,
                end: place as u32,
            })?;
            from = place;
        }
    }
    if from < keys.len() {
        runs.push(Run {
            first: keys[from],
            from: from as u32,
            end: keys.len() as u32,
        })?;
    }
    Ok(runs)
}

/// The keys, run by run, in order of the first of each: mostly in order already.
pub(crate) fn gathered(alloc: Global, keys: &[u128]) -> Result<Vec<u128>, AllocError>
    requires { length keys.now ≤ 200_000 }
    ensures same { IfOk result (λ gathered. IsPermutation keys.now gathered.items) }
    ensures long { IfOk result (λ gathered. length gathered.items ≡ length keys.now) }
{
    let mut runs = runs_of(alloc, keys)?;
    runs.sort_unstable();
    let mut gathered = Vec::with_capacity(alloc, keys.len())?;
    for run in &runs {
        gathered.extend_from_slice(&keys[run.from as usize..run.end as usize])?;
    }
    Ok(gathered)
}
