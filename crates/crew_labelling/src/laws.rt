//! Laws over the definitions alone.
ghost use Rattle.std.specs.Prelude.{◌≡◌, ℕ, List};
ghost use Rattle.crew_label.specs.Tables.{Leaving};
ghost use Rattle.crew_net.specs.Nets.{Net};
ghost use Rattle.crew_labelling.specs.Beside.{StayAlike};
ghost use Rattle.crew_labelling.specs.Labellings.{Labelling, labelling_of};
ghost use Rattle.crew_labelling.specs.Passes.{AreTold, IsCoveredBy, network_over, pass_of};
ghost use Rattle.crew_labelling.specs.Right.{IsRight};
ghost use Rattle.crew_labelling.specs.Terms.{AreLawful, AreTerms, terms_of};

use crew_forgetful::Lapses;
use crew_pairing::Duty;

/// Of each resource that tells what lapses the terms have the laws.
pub fn resources_are_lawful<R: Lapses<Duty>>()
    ensures { (r : R) (net : Net) (base numbers : List ℕ) (leaves : Leaving) → AreLawful
        (terms_of R.Value.cmp R.Lapses.own R.Staged.own R.Forgets.own R.Resource.own r net base
        numbers leaves) }
{}

/// The labelling is right, and no other one is.
pub fn one_labelling_is_right<R: Lapses<Duty>>()
    ensures right { (r : R) (net : Net) (base numbers : List ℕ) (leaves : Leaving) →
        let w = terms_of R.Value.cmp R.Lapses.own R.Staged.own R.Forgets.own R.Resource.own r net
        base numbers leaves in
        AreTerms w → IsRight w (labelling_of w) }
    ensures only { (r : R) (net : Net) (base numbers : List ℕ) (leaves : Leaving)
        (y : Labelling R.Value) →
        let w = terms_of R.Value.cmp R.Lapses.own R.Staged.own R.Forgets.own R.Resource.own r net
        base numbers leaves in
        AreTerms w → IsRight w y → y ≡ labelling_of w }
{
    resources_are_lawful::<R>();
}

/// The labelling is a covered pass, and its fronts have walks of duties.
pub fn labellings_are_covered<R: Lapses<Duty>>()
    ensures covered { (r : R) (net : Net) (base numbers : List ℕ) (leaves : Leaving) →
        let w = terms_of R.Value.cmp R.Lapses.own R.Staged.own R.Forgets.own R.Resource.own r net
        base numbers leaves in
        AreTerms w → IsCoveredBy R.below R.same_sums (network_over w) (pass_of w (labelling_of w)) }
    ensures told { (r : R) (net : Net) (base numbers : List ℕ) (leaves : Leaving) →
        let w = terms_of R.Value.cmp R.Lapses.own R.Staged.own R.Forgets.own R.Resource.own r net
        base numbers leaves in
        AreTerms w → AreTold (pass_of w (labelling_of w)) }
{
    resources_are_lawful::<R>();
}

/// What is made of the same comes out the same: over two networks, of one resource and base, a front
/// is the other's where its duty boards from pools that are alike; an arrival's pool where all its
/// duties do; and a departure's where all arrivals that it waits on have the same pools.
pub fn what_is_made_of_the_same_is_the_same<R: Lapses<Duty>>()
    ensures { (r : R) (net other : Net) (base numbers others : List ℕ) (leaves leaving : Leaving) →
        let w = terms_of R.Value.cmp R.Lapses.own R.Staged.own R.Forgets.own R.Resource.own r net
        base numbers leaves in
        let z = terms_of R.Value.cmp R.Lapses.own R.Staged.own R.Forgets.own R.Resource.own r other
        base others leaving in
        AreTerms w → AreTerms z → StayAlike w z }
{
    resources_are_lawful::<R>();
}
