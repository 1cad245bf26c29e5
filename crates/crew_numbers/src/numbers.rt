//! Numbers of duties.

ghost use Rattle.std.specs.Prelude.{◌≡◌, ◌≤◌, IfOk, length};
ghost use Rattle.std.specs.Arc.{arc_value};
ghost use Rattle.crew_numbers.specs.Numbers.{AreAlike, AreNumbers, Stay, TellNone};

use crate::kept::next_taken;
use crate::taking::{Taken, new_taken};
use crew_net::Net;
use std::alloc::{AllocError, Global};
use std::marker::Model;
use std::sync::Arc;

/// Numbers of the duties of a network, which stay when other duties come and go.
///
/// A contract sees the network, by rank the number of each duty, and by number the rank of the duty
/// that has it: 4,294,967,295 where none has it.
pub struct Numbers {
    net: Arc<Net, Global>,
    taken: Taken,
}

impl Drop for Numbers {
    fn drop(self) {
        let Self { net: _, taken: _ } = self;
    }
}

impl Model for Numbers {
    ghost use Rattle.crew_numbers.specs.Numbers as Spec;

    ghost Value = { Spec.Numbers };

    ghost view = { λ n. record {
      net = n.net.value;
      numbers = n.taken.numbers.value.items;
      ranks = n.taken.ranks.value.items;
    } };

    ghost use Rattle.crew_numbers.specs.Machinery.Held.{IsHeld};

    ghost invariant = { λ n. IsHeld n.net.value n.taken.numbers.value.items
        n.taken.ranks.value.items n.taken.keys };
}

impl Numbers {
    /// Numbers of the duties of a network, with none before them.
    pub fn new(alloc: Global, net: Arc<Net, Global>) -> Result<Numbers, AllocError>
        ensures { IfOk result (λ all. all.net ≡ arc_value net) }
    {
        let taken = new_taken(alloc, net.duty_count())?;
        Ok(Numbers { net, taken })
    }

    /// Numbers of the duties of another network: each duty whose key both have keeps its number,
    /// and others take numbers that no duty had.
    pub fn next(&self, alloc: Global, net: Arc<Net, Global>) -> Result<Numbers, AllocError>
        ensures net { IfOk result (λ next. next.net ≡ arc_value net) }
        ensures stay { IfOk result (Stay self.now) }
        ensures alike { IfOk result (AreAlike self.now) }
    {
        let taken = next_taken(alloc, &self.taken, &self.net, &net)?;
        Ok(Numbers { net, taken })
    }

    /// The network.
    pub fn net(&self) -> &Arc<Net, Global>
        ensures { arc_value result.now ≡ self.now.net }
    {
        &self.net
    }

    /// The number of each duty, by rank.
    pub fn numbers(&self) -> &Arc<Vec<u32>, Global>
        ensures value { (arc_value result.now).items ≡ self.now.numbers }
        ensures are { AreNumbers self.now.numbers self.now.ranks (length self.now.net.duties) }
    {
        &self.taken.numbers
    }

    /// The rank of the duty that has a number, by number; 4,294,967,295 where none has it.
    pub fn ranks(&self) -> &Arc<Vec<u32>, Global>
        ensures value { (arc_value result.now).items ≡ self.now.ranks }
        ensures none { TellNone self.now.ranks (length self.now.net.duties) }
        ensures few { length self.now.ranks ≤ 400_000 }
    {
        &self.taken.ranks
    }
}
