//! Values in buckets.
ghost use Rattle.std.specs.Prelude.{◌≡◌, ◌≤◌, ◌<◌, ℕ, [], ◌∷◌, List, map, not, true, false, ltb, IsTrue, IfOk, IsOk, OnOk, OnErr, MatchOption, vec_len, vec_capacity};
ghost use Rattle.std.specs.List.{position, position_or_len, filter};
ghost use Rattle.crew_resource.specs.Members.{Member};
ghost use Rattle.crew_resource.specs.Entries.{placed};
ghost use Rattle.crew_front.specs.Machinery.Grades.{AreRising, AreGraded, Admitted, HoldSame};

use crew_resource::Resource;
use std::alloc::{AllocError, Global};
use std::marker::Model;

// A value with its grade.
#[derive(Drop)]
struct Graded<V> {
    grade: u32,
    value: V,
}

/// Values in a bucket for each grade: what is at most a value lies in no bucket of a greater grade,
/// and what it is at most in none of a lesser.
///
/// The buckets stand one after another in one list, by rising grade. A contract sees the list of
/// the values.
#[derive(Drop)]
pub struct Buckets<R: Resource + Drop> {
    values: Vec<Graded<R::Value>>,
}

impl<R: Resource + Drop> Model for Buckets<R> {
    ghost Value = { List R.Value };

    ghost view = { λ b. map (λ g. g.value) b.values.items };

    ghost invariant = { λ b. AreRising (λ g. g.grade) b.values.items
        × AreGraded (λ g. g.grade) (λ g. g.value) R.grade_of b.values.items };
}

impl<R: Resource + Drop> Buckets<R> {
    /// No values.
    pub fn new(alloc: Global) -> Self
        ensures { result ≡ [] }
    {
        Buckets {
            values: Vec::new(alloc),
        }
    }

    /// A value that is at most this one, or none where there is none. It lies in no bucket of a
    /// greater grade.
    pub fn find_at_most(&self, resource: &R, value: &R::Value) -> Option<&R::Value>
        ensures { MatchOption result ((w : R.Value) → Member self.now w
            → R.below w value.now ≡ false)
            (λ w. Member self.now w.now × (R.below w.now value.now ≡ true)) }
    {
        let end = end_of(&self.values, resource.grade(value));
        let Some(place) = first_at_most(resource, &self.values[..end], value) else {
            return None;
        };
        Some(&self.values[place].value)
    }

    /// Puts a value into its bucket, and lets go of those that it is at most: they lie in no bucket
    /// of a lesser grade. The answer is whether there were any. On want of memory nothing changes.
    pub fn admit(&mut self, resource: &R, value: R::Value) -> Result<bool, AllocError>
        ensures ok { OnOk result (Admitted R.below value self.old self.new) }
        ensures none { IfOk result (λ any. any ≡ false → (w : R.Value) → Member self.old w
            → R.below value w ≡ false) }
        ensures err { OnErr result (self.new ≡ self.old) }
    {
        self.values.reserve(1)?;
        let grade = resource.grade(&value);
        let before = self.values.len();
        drop_beaten(resource, &mut self.values, grade, &value);
        let any = self.values.len() < before;
        file(&mut self.values, grade, value)?;
        Ok(any)
    }

    /// Puts a value into its bucket. On want of memory nothing changes.
    pub fn put(&mut self, resource: &R, value: R::Value) -> Result<(), AllocError>
        ensures ok { OnOk result (HoldSame (value ∷ self.old) self.new) }
        ensures err { OnErr result (self.new ≡ self.old) }
    {
        let grade = resource.grade(&value);
        file(&mut self.values, grade, value)?;
        Ok(())
    }
}

// Puts a value at the end of its bucket.
fn file<V: Drop>(values: &mut Vec<Graded<V>>, grade: u32, value: V) -> Result<(), AllocError>
    requires { AreRising (λ g. g.grade) values.old.items }
    ensures ok { OnOk result (values.new.items ≡ placed (λ g. ltb grade g.grade)
        (record { grade = grade; value = value }) values.old.items) }
    ensures err { OnErr result (values.new.items ≡ values.old.items) }
    ensures succeeds { vec_len values.old < vec_capacity values.old → IsOk result }
{
    let end = end_of(values, grade);
    values.insert(end, Graded { grade, value })?;
    Ok(())
}

// The place after the buckets of no greater grade.
fn end_of<V>(values: &[Graded<V>], grade: u32) -> usize
    requires { AreRising (λ g. g.grade) values.now }
    ensures { result ≡ position_or_len (λ g. ltb grade g.grade) values.now }
{
    values.partition_point(|graded| graded.grade <= grade)
}

// The place of the first value that is at most this one.
fn first_at_most<R: Resource>(
    resource: &R,
    values: &[Graded<R::Value>],
    value: &R::Value,
) -> Option<usize>
    ensures { result ≡ position (λ g. R.below g.value value.now) values.now }
{
    values
        .iter()
        .position(|graded| resource.at_most(&graded.value, value))
}

// Lets go of the values that this one is at most: none has a lesser grade.
fn drop_beaten<R: Resource>(
    resource: &R,
    values: &mut Vec<Graded<R::Value>>,
    grade: u32,
    value: &R::Value,
)
    requires own { grade ≡ R.grade_of value.now }
    requires graded { AreGraded (λ g. g.grade) (λ g. g.value) R.grade_of values.old.items }
    ensures kept { values.new.items ≡ filter (λ g. not (R.below value.now g.value))
        values.old.items }
    ensures fewer { vec_len values.new ≤ vec_len values.old }
    ensures capacity { vec_capacity values.new ≡ vec_capacity values.old }
{
    values.retain(|held| held.grade < grade || !resource.at_most(value, &held.value));
}
