//! Calls of what the edits leave standing since the timetable was kept.
ghost use Rattle.std.specs.Prelude.{◌≡◌};
ghost use Rattle.crew_dirty.specs.Dirty.{IsNetOver};
ghost use Rattle.crew_rules.specs.Settings.{standard};

use crate::numbers::net_over;
use crate::words::{code_of, count_of, key_of};
use crew_dirty::{Carried, NodeState, NodeStates, carry};
use crew_flights::{Code, Timetable};
use crew_net::{Net, Node};
use std::alloc::Global;
use std::thread::Threads;

// The same state at every node.
#[derive(Drop)]
struct Everywhere {
    state: NodeState,
}

impl NodeStates for Everywhere {
    ghost state_at = { λ e base rank. e.state };

    fn state(&self, _base: Code, _rank: usize) -> NodeState {
        self.state
    }
}

// Writes the next place that isn't kept.
fn write_next(carried: &Carried, net: &Net, from: usize, out: &mut String) -> Option<()> {
    match carried.next_dirty(net, from) {
        Some(place) => write!(out, " {place}").ok(),
        None => out.push_str(" none").ok(),
    }
}

// Writes whether the node of a base and a flight is unchanged where all nodes stand so.
fn write_unchanged(
    carried: &Carried,
    net: &Net,
    state: NodeState,
    names: (&str, &str),
    out: &mut String,
) -> Option<()> {
    let node = Node {
        base: code_of(names.0)?,
        key: key_of(names.1)?,
    };
    let holds = carried.unchanged(net, &node, &Everywhere { state });
    out.push_str(if holds { " yes" } else { " no" }).ok()
}

// Writes what a call asks for.
fn write_as(carried: &Carried, net: &Net, words: &[&str], out: &mut String) -> Option<()> {
    match *words {
        ["next", from] => write_next(carried, net, count_of(from), out),
        ["same", base, flight] => {
            write_unchanged(carried, net, NodeState::Same, (base, flight), out)
        }
        ["other", base, flight] => {
            write_unchanged(carried, net, NodeState::Other, (base, flight), out)
        }
        _ => None,
    }
}

/// Answers a call of what stays between the earlier timetable's network and this one.
pub fn answer<R: Threads + Sync>(
    rt: &R,
    alloc: Global,
    earlier: &Timetable,
    timetable: &Timetable,
    net: &Net,
    words: &[&str],
    out: &mut String,
) -> Option<()>
    requires settings { net.now.settings ≡ standard }
    requires over { IsNetOver timetable.now net.now }
{
    let old = net_over(rt, alloc, earlier)?;
    match carry(alloc, &old, earlier, net, timetable) {
        Ok(carried) => write_as(&carried, net, words, out),
        Err(_) => None,
    }
}
