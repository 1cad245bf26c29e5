//! Marks, place by place.
//!
//! Marks are 32-bit numbers: an amount that doesn't fit is held at the greatest or the least that
//! does, which keeps the order and only tells less. Sixteen are compared in one row without a
//! branch.
ghost use Rattle.std.specs.Prelude.{◌≡◌, true};
ghost use Rattle.crew_label.specs.Machinery.Marks.{are_at_most};

// Whether each of some marks is at most the other's at its place. There is one way through it, so
// that four are compared at a time.
#[inline(always)]
pub(crate) fn are_at_most(a: &[i32; 16], b: &[i32; 16]) -> bool
    ensures { result ≡ are_at_most a.now b.now }
{
    true & (a[0] <= b[0])
        & (a[1] <= b[1])
        & (a[2] <= b[2])
        & (a[3] <= b[3])
        & (a[4] <= b[4])
        & (a[5] <= b[5])
        & (a[6] <= b[6])
        & (a[7] <= b[7])
        & (a[8] <= b[8])
        & (a[9] <= b[9])
        & (a[10] <= b[10])
        & (a[11] <= b[11])
        & (a[12] <= b[12])
        & (a[13] <= b[13])
        & (a[14] <= b[14])
        & (a[15] <= b[15])
}

// The lesser of two marks at each place.
#[inline(always)]
pub(crate) fn lesser(a: &[i32; 16], b: &[i32; 16]) -> [i32; 16]
    ensures first { are_at_most result a.now ≡ true }
    ensures second { are_at_most result b.now ≡ true }
{
    [
        a[0].min(b[0]),
        a[1].min(b[1]),
        a[2].min(b[2]),
        a[3].min(b[3]),
        a[4].min(b[4]),
        a[5].min(b[5]),
        a[6].min(b[6]),
        a[7].min(b[7]),
        a[8].min(b[8]),
        a[9].min(b[9]),
        a[10].min(b[10]),
        a[11].min(b[11]),
        a[12].min(b[12]),
        a[13].min(b[13]),
        a[14].min(b[14]),
        a[15].min(b[15]),
    ]
}

// The greater of two marks at each place.
#[inline(always)]
pub(crate) fn greater(a: &[i32; 16], b: &[i32; 16]) -> [i32; 16] {
    [
        a[0].max(b[0]),
        a[1].max(b[1]),
        a[2].max(b[2]),
        a[3].max(b[3]),
        a[4].max(b[4]),
        a[5].max(b[5]),
        a[6].max(b[6]),
        a[7].max(b[7]),
        a[8].max(b[8]),
        a[9].max(b[9]),
        a[10].max(b[10]),
        a[11].max(b[11]),
        a[12].max(b[12]),
        a[13].max(b[13]),
        a[14].max(b[14]),
        a[15].max(b[15]),
    ]
}
