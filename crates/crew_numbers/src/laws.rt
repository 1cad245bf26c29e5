//! What holds of all numbers.

ghost use Rattle.std.specs.Prelude.{◌≡◌, ℕ, length};
ghost use Rattle.crew_numbers.specs.Numbers.{AreNumbers, IsNumber, Numbers};
ghost use Rattle.crew_pairing.specs.Duties.{RiseByKey};
ghost use Rattle.crew_pairing.specs.declared.duty.Duty.{Duty};
ghost use Rattle.crew_resource.specs.Members.{Member};

/// A number tells its duty: two duties of one network have different numbers.
pub fn numbers_tell_duties()
    ensures { (all : Numbers) (d e : Duty) (number : ℕ)
        → AreNumbers all.numbers all.ranks (length all.net.duties) → IsNumber all d number
        → IsNumber all e number → d ≡ e }
{}

/// A duty of a network has a number, and no two.
pub fn a_duty_has_one_number()
    ensures some { (all : Numbers) (d : Duty)
        → AreNumbers all.numbers all.ranks (length all.net.duties) → Member all.net.duties d
        → (number : ℕ) × IsNumber all d number }
    ensures one { (all : Numbers) (d : Duty) (m n : ℕ) → RiseByKey all.net.duties
        → IsNumber all d m → IsNumber all d n → m ≡ n }
{}
