//! Ranks: the places of duties in order of key.

ghost use Rattle.std.specs.Prelude.{◌≤◌, length};
ghost use Rattle.crew_net.specs.Machinery.Ranking.{IsKeyStart, IsRankOf};
ghost use Rattle.crew_pairing.specs.Duties.{RiseByKey};

use crew_pairing::{Duties, Key};

// How many duties have lesser keys.
fn key_start(duties: &Duties, key: &Key) -> usize
    requires { RiseByKey duties.now }
    ensures within { result ≤ length duties.now }
    ensures start { IsKeyStart duties.now key.now result }
{
    let mut low = 0;
    let mut high = duties.len();
    while low < high {
        let middle = low + (high - low) / 2;
        if duties.at(middle).key.cmp(key).is_lt() {
            low = middle + 1;
        } else {
            high = middle;
        }
    }
    low
}

/// The rank of the duty with a key, if there is one.
pub(crate) fn rank_of(duties: &Duties, key: &Key) -> Option<usize>
    requires { RiseByKey duties.now }
    ensures { IsRankOf duties.now key.now result }
{
    let rank = key_start(duties, key);
    if rank >= duties.len() {
        return None;
    }
    if duties.at(rank).key == *key {
        return Some(rank);
    }
    None
}
