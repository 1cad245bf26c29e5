//! Which client sits at which desk.

ghost use Rattle.std.specs.Prelude.{◌≡◌, ◌<◌, ◌↔◌, IfNone, IfOk, IfSome, IsTrue, None, Some, length, option_map, replicate, set, slice_get, vec_len};
ghost use Rattle.crew_lines.specs.Names.{bytes_of_name};
ghost use Rattle.crew_serve.specs.Rosters.{HasAt, HasNoneFree, IsNamed, Lacks};

use crew_lines::Name;
use std::alloc::{AllocError, Global};
use std::marker::Model;

/// Who sits at which desk. A contract sees the name at each desk, if there is one.
#[derive(Drop)]
pub(crate) struct Roster {
    names: Vec<Option<Name>>,
    // Who sat at each desk last.
    last: Vec<Option<Name>>,
    // The desk at which the next client sits down, if it is free.
    next: usize,
    ghost as_many: { vec_len last ≡ vec_len names },
}

impl Model for Roster {
    ghost use Rattle.std.specs.Prelude.{List, Option};
    ghost use Rattle.crew_lines.specs.declared.name.Name.{Name as NameOf};

    ghost Value = { List (Option NameOf) };

    ghost view = { λ r. r.names.items };
}

// Whether a name is this one.
fn is_named(name: &Option<Name>, wanted: &Name) -> bool
    ensures { IsTrue result ↔ IsNamed name.now (bytes_of_name wanted.now) }
{
    match name {
        Some(name) => name.as_bytes() == wanted.as_bytes(),
        None => false,
    }
}

impl Roster {
    /// So many desks, all free.
    pub(crate) fn new(alloc: Global, desks: usize) -> Result<Roster, AllocError>
        ensures { IfOk result (λ roster. roster ≡ replicate desks None) }
    {
        let mut names = Vec::new(alloc);
        names.resize(desks, None)?;
        let mut last = Vec::new(alloc);
        last.resize(desks, None)?;
        Ok(Roster {
            names,
            last,
            next: 0,
        })
    }

    /// The desk of a client, if it has one.
    pub(crate) fn find(&self, name: &Name) -> Option<usize>
        ensures some { IfSome result
            (λ desk. HasAt self.now desk (bytes_of_name name.now)) }
        ensures none { IfNone result (Lacks self.now (bytes_of_name name.now)) }
    {
        for desk in 0..self.names.len() {
            if is_named(&self.names[desk], name) {
                return Some(desk);
            }
        }
        None
    }

    // The desk at which a client sat last, if it is free.
    fn former(&self, name: &Name) -> Option<usize>
        ensures { IfSome result (λ desk. slice_get self.now desk ≡ Some None) }
    {
        for desk in 0..self.names.len() {
            if self.names[desk].is_none() && is_named(&self.last[desk], name) {
                return Some(desk);
            }
        }
        None
    }

    // The first free desk from one on.
    fn free_from(&self, first: usize) -> Option<usize>
        ensures some { IfSome result (λ desk. slice_get self.now desk ≡ Some None) }
        ensures none { IfNone result (HasNoneFree first self.now) }
    {
        for desk in first..self.names.len() {
            if self.names[desk].is_none() {
                return Some(desk);
            }
        }
        None
    }

    // A free desk for a client, if there is one: where it sat last, or else the next one.
    fn free_for(&self, name: &Name) -> Option<usize>
        ensures some { IfSome result (λ desk. slice_get self.now desk ≡ Some None) }
        ensures none { IfNone result (HasNoneFree 0 self.now) }
    {
        if let Some(desk) = self.former(name) {
            return Some(desk);
        }
        if let Some(desk) = self.free_from(self.next) {
            return Some(desk);
        }
        self.free_from(0)
    }

    /// Gives a client a desk that is free; `None` exactly where there is none. It is the desk at which
    /// the client sat last, so that what it is told stays in order, or else desks are given in turn.
    pub(crate) fn admit(&mut self, name: Name) -> Option<usize>
        ensures some { IfSome result (λ desk. (slice_get self.old desk ≡ Some None)
            × (self.new ≡ set self.old desk (Some name))) }
        ensures none { IfNone result (HasNoneFree 0 self.old) }
        ensures same { IfNone result (self.new ≡ self.old) }
    {
        let desk = self.free_for(&name)?;
        self.names[desk] = Some(name);
        self.last[desk] = Some(name);
        self.next = desk + 1;
        Some(desk)
    }

    /// A desk is free again.
    pub(crate) fn leave(&mut self, desk: usize)
        ensures { self.new ≡ set self.old desk None }
    {
        if let Some(name) = self.names.get_mut(desk) {
            *name = None;
        }
    }
}
