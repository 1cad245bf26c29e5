//! A table of cells, each written once.
//!
//! What is stored has a token beside the value, which names the basis that the value is right for.
//! The token of a table is made once, by a slot that is let go of at once, and outlives it.
ghost use Rattle.std.specs.Prelude.{◌≡◌, ◌<◌, ◌∷◌, [], IfOk, IfSome, slice_index};

use crate::rule::CellRule;
use crate::value::CellValue;
use boxcar::slot::{OnceSlot, SlotRule, Written};
use boxcar::tag::{Names, Tag};
use std::alloc::{AllocError, Global};
use std::marker::{Model, PhantomData};
use std::snapshot::Snapshot;

// A token that names a basis. It has no bytes.
type Token<B> = Written<Snapshot<B>>;

// A value, and the token of the basis that it is right for.
#[derive(Drop)]
struct Stamped<B, T> {
    value: T,
    of: Token<B>,
}

// The rule of a slot, whose tag is the name of a basis and the number of a cell.
struct ByRule<R> {
    rule: PhantomData<R>,
}

impl<B, T, R: CellRule<B, T>> SlotRule<Stamped<B, T>> for ByRule<R> {
    ghost holds = { λ tag stamped. (slice_index tag 0 ≡ stamped.of.of)
        × R.holds stamped.of.value.value (slice_index tag 1) stamped.value };
}

// A slot that gives a token may hold anything.
struct Anything;

impl<B> SlotRule<Snapshot<B>> for Anything {
    ghost use Rattle.std.specs.Prelude.{⊤};

    ghost holds = { λ _ _. ⊤ };
}

// Where a cell is: in a table over this basis, at this number.
#[derive(Drop)]
struct Address<B> {
    of: Token<B>,
    number: usize,
}

struct ByAddress;

impl<B> Names<Address<B>> for ByAddress {
    ghost numbers = { λ address. address.of.of ∷ address.number ∷ [] };
}

// The tag of a cell.
fn tag<B>(of: &Token<B>, number: usize) -> Tag
    ensures { result.numbers ≡ of.now.of ∷ number ∷ [] }
{
    let address = Address {
        of: of.again(),
        number,
    };
    Tag::of::<Address<B>, ByAddress>(&address)
}

// A token of a basis. The slot is new, so it takes what it is given; but no clause of it says so.
fn token<B>(basis: &B) -> Result<Token<B>, AllocError>
    ensures { IfOk result (λ of. of.value.value ≡ basis.now) }
{
    let slot: OnceSlot<Snapshot<B>, Anything> = OnceSlot::new(&Tag::empty());
    slot.set_written(Snapshot::of(basis))
        .map_err(|_| AllocError)
}

/// So many cells over one basis, each written once.
///
/// A contract sees the basis and how many cells there are.
#[derive(Drop)]
pub struct OnceCells<B, T, R: CellRule<B, T>> {
    of: Token<B>,
    slots: Vec<OnceSlot<Stamped<B, T>, ByRule<R>>>,
}

impl<B, T, R: CellRule<B, T>> Model for OnceCells<B, T, R> {
    ghost use Rattle.std.specs.Prelude.{length};
    ghost use Rattle.crew_cells.specs.Shapes.{CellsOver, cells_code};
    ghost use Rattle.crew_cells.specs.Machinery.Addresses.{AreAddressed};

    ghost Value = { CellsOver B };

    ghost coded = { cells_code B.code };

    ghost view = { λ cells. record {
      basis = cells.of.value.value;
      count = length cells.slots.items;
    } };

    ghost invariant = { λ cells. AreAddressed cells.of.of cells.slots.items };
}

impl<B, T: Drop, R: CellRule<B, T>> OnceCells<B, T, R> {
    /// So many cells over a basis, all of them empty.
    ///
    /// `Err` means that memory ran out, and nothing is kept then.
    pub fn new(alloc: Global, basis: &B, count: usize) -> Result<OnceCells<B, T, R>, AllocError>
        ensures basis { IfOk result (λ cells. cells.basis ≡ basis.now) }
        ensures count { IfOk result (λ cells. cells.count ≡ count) }
    {
        let of = token(basis)?;
        let mut slots = Vec::with_capacity(alloc, count)?;
        for number in 0..count {
            slots.push(OnceSlot::new(&tag(&of, number)))?;
        }
        Ok(OnceCells { of, slots })
    }
}

impl<B, T, R: CellRule<B, T>> OnceCells<B, T, R> {
    /// How many cells there are.
    pub fn count(&self) -> usize
        ensures { result ≡ self.now.count }
    {
        self.slots.len()
    }

    /// What is in a cell: `None` while it is empty.
    pub fn get(&self, number: usize) -> Option<&T>
        requires { number < self.now.count }
        ensures { IfSome result (λ value. R.holds self.now.basis number value.now) }
    {
        let stamped = self.slots[number].get()?;
        stamped.of.agrees(&self.of);
        Some(&stamped.value)
    }
}

impl<B, T: Drop, R: CellRule<B, T>> OnceCells<B, T, R> {
    /// Puts a value into a cell, unless another is there, and tells what is to be used from then on.
    /// Where another thread was quicker, that is its value; where it is just writing, the caller's
    /// own.
    pub fn offer(&self, number: usize, value: T) -> CellValue<'_, T>
        requires inside { number < self.now.count }
        requires right { R.holds self.now.basis number value }
        ensures { R.holds self.now.basis number result }
    {
        let stamped = Stamped {
            value,
            of: self.of.again(),
        };
        match self.slots[number].set(stamped) {
            Ok(stamped) => CellValue::there(&stamped.value),
            Err(Stamped { value, of: _ }) => self.other_or_own(number, value),
        }
    }

    // What another thread has put into a cell, or the caller's own value while it is just writing.
    fn other_or_own(&self, number: usize, value: T) -> CellValue<'_, T>
        requires inside { number < self.now.count }
        requires right { R.holds self.now.basis number value }
        ensures { R.holds self.now.basis number result }
    {
        if let Some(other) = self.get(number) {
            return CellValue::there(other);
        }
        CellValue::own(value)
    }
}

/// A table of which each cell is written, so that each read gives a value.
///
/// A contract sees of it what it sees of the `OnceCells` that it was.
#[derive(Drop)]
pub struct FullCells<B, T, R: CellRule<B, T>> {
    of: Token<B>,
    slots: Vec<OnceSlot<Stamped<B, T>, ByRule<R>>>,
    written: Vec<Written<Stamped<B, T>>>,
}

impl<B, T, R: CellRule<B, T>> Model for FullCells<B, T, R> {
    ghost use Rattle.std.specs.Prelude.{◌≡◌, length};
    ghost use Rattle.crew_cells.specs.Shapes.{CellsOver, cells_code};
    ghost use Rattle.crew_cells.specs.Machinery.Addresses.{AreAddressed, AreOf};

    ghost Value = { CellsOver B };

    ghost coded = { cells_code B.code };

    ghost view = { λ full. record {
      basis = full.of.value.value;
      count = length full.slots.items;
    } };

    ghost invariant = { λ full. AreAddressed full.of.of full.slots.items
        × (length full.written.items ≡ length full.slots.items)
        × AreOf full.written.items full.slots.items (λ token. token.of) };
}

impl<B, T, R: CellRule<B, T>> FullCells<B, T, R> {
    /// How many cells there are.
    pub fn count(&self) -> usize
        ensures { result ≡ self.now.count }
    {
        self.written.len()
    }

    /// What is in a cell.
    pub fn get(&self, number: usize) -> &T
        requires { number < self.now.count }
        ensures { R.holds self.now.basis number result.now }
    {
        let stamped = self.slots[number].value(&self.written[number]);
        stamped.of.agrees(&self.of);
        &stamped.value
    }
}

impl<B, T: Drop, R: CellRule<B, T>> OnceCells<B, T, R> {
    /// The table once all of its cells are written: `None` where one is empty, and then it is let go
    /// of.
    ///
    /// `Err` means that memory ran out, and nothing is kept then.
    pub fn full(self, alloc: Global) -> Result<Option<FullCells<B, T, R>>, AllocError>
        ensures { IfOk result (λ found. IfSome found (λ full. full ≡ self)) }
    {
        let count = self.slots.len();
        let mut written = Vec::with_capacity(alloc, count)?;
        for number in 0..count {
            let Some(token) = self.slots[number].witness() else {
                return Ok(None);
            };
            written.push(token)?;
        }
        let OnceCells { of, slots } = self;
        Ok(Some(FullCells { of, slots, written }))
    }
}
