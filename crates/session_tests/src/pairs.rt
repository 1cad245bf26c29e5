//! A published pair, by commands.

use crate::versions::fill;
use crate::words::{Answer, count_at, read};
use crew_publish::{Note, PairFault, Publisher, View, Viewer, pair};
use crew_version::Version;
use std::alloc::Global;
use std::io::{self, Print};
use std::sync::{Arc, Wait};
use std::thread::{Threads, join};

// A publisher, its viewers, and views that are held; and the publisher of another pair, which showed
// the same version first.
#[derive(Drop)]
struct Desk<R: Wait + Drop> {
    publisher: Publisher<R>,
    viewers: Vec<Viewer>,
    held: Vec<View>,
    other: Publisher<R>,
}

// The number of a version, which has as many entries.
fn told(version: &Version) -> Answer {
    if version.number() == version.count() as u64 {
        Ok(version.number())
    } else {
        Err(None)
    }
}

// The number of the version at a place.
fn number_at(versions: &[Arc<Version>], place: usize) -> Answer {
    match versions.get(place) {
        Some(version) => told(version),
        None => Err(None),
    }
}

// The number of the version that a viewer sees.
fn see(viewer: &mut Viewer) -> Answer {
    match viewer.view() {
        Ok(view) => told(view.version()),
        Err(fault) => Err(fault.number()),
    }
}

// The same of a viewer that may not be there.
fn see_by(viewer: Option<&mut Viewer>) -> Answer {
    match viewer {
        Some(viewer) => see(viewer),
        None => Err(None),
    }
}

// How many viewers there are, where each sees the version of this number.
fn all_see(viewers: &mut [Viewer], number: u64) -> Answer {
    let count = viewers.len() as u64;
    for viewer in viewers {
        if see(viewer) != Ok(number) {
            return Err(None);
        }
    }
    Ok(count)
}

// Gives the number where a viewer sees the version of it, or the one before.
fn see_near(viewer: Option<&mut Viewer>, number: u64) -> Answer {
    match see_by(viewer) {
        Ok(seen) if seen == number || seen.saturating_add(1) == number => Ok(number),
        _ => Err(None),
    }
}

// Holds a view of a viewer beside others; whether it could.
fn hold(viewer: &mut Viewer, held: &mut Vec<View>) -> bool {
    match viewer.view() {
        Ok(view) => held.push(view).is_ok(),
        Err(_) => false,
    }
}

// Holds a view of each viewer, and gives how many are held.
fn hold_all(viewers: &mut [Viewer], held: &mut Vec<View>) -> Answer {
    for viewer in viewers {
        if !hold(viewer, held) {
            return Err(None);
        }
    }
    Ok(held.len() as u64)
}

// How many of the views are of the version of this number.
fn count_shown(views: &[View], number: u64) -> Answer {
    let mut count: u64 = 0;
    for view in views {
        if told(view.version()) == Ok(number) {
            count = count.saturating_add(1);
        }
    }
    Ok(count)
}

// The number that a note tells, with as many entries.
fn noted<R: Wait + Drop>(note: &Note<R>) -> Answer {
    if note.number() == note.count() as u64 {
        Ok(note.number())
    } else {
        Err(None)
    }
}

// Publishes the version at a place.
fn publish_at<R: Wait + Drop>(
    publisher: &mut Publisher<R>,
    versions: &[Arc<Version>],
    place: usize,
) -> Result<Note<R>, Option<u8>> {
    let Some(version) = versions.get(place) else {
        return Err(None);
    };
    let Ok(version) = Arc::try_clone(version) else {
        return Err(None);
    };
    match publisher.publish(version) {
        Ok(note) => Ok(note),
        Err(fault) => Err(fault.number()),
    }
}

// A viewer goes on as a fresh one of a pair, and gives the number of the version that it sees then.
fn go_on<R: Wait + Drop>(publisher: &mut Publisher<R>, viewer: Option<&mut Viewer>) -> Answer {
    let Some(viewer) = viewer else {
        return Err(None);
    };
    match publisher.viewer() {
        Ok(fresh) => match viewer.go_on_as(fresh) {
            Ok(()) => see(viewer),
            Err(fault) => Err(fault.number()),
        },
        Err(fault) => Err(fault.number()),
    }
}

// Publishes the versions after the first up to a place; whether it could.
fn publish_up_to<R: Wait + Drop>(
    publisher: &mut Publisher<R>,
    versions: &[Arc<Version>],
    last: usize,
) -> bool {
    for place in 0..last {
        if publish_at(publisher, versions, place.saturating_add(1)).is_err() {
            return false;
        }
    }
    true
}

// Whether no view of so many is of a lesser number than the one before.
fn never_back(viewer: &mut Viewer, views: usize) -> bool {
    let mut last = 0;
    for _ in 0..views {
        match see(viewer) {
            Ok(number) if last <= number => last = number,
            _ => return false,
        }
    }
    true
}

// Makes a fresh viewer, and gives how many there are then.
fn add<R: Wait + Drop>(publisher: &mut Publisher<R>, viewers: &mut Vec<Viewer>) -> Answer {
    match publisher.viewer() {
        Ok(viewer) => match viewers.push(viewer) {
            Ok(()) => Ok(viewers.len() as u64),
            Err(_) => Err(None),
        },
        Err(fault) => Err(fault.number()),
    }
}

// Makes so many fresh viewers, and gives how many there are after the last.
fn add_all<R: Wait + Drop>(
    publisher: &mut Publisher<R>,
    viewers: &mut Vec<Viewer>,
    count: usize,
) -> Answer {
    let mut last = Err(None);
    for _ in 0..count {
        last = add(publisher, viewers);
    }
    last
}

// Lets the last viewer go, and gives how many are left.
fn let_go(viewers: &mut Vec<Viewer>) -> Answer {
    match viewers.pop() {
        Some(viewer) => {
            drop(viewer);
            Ok(viewers.len() as u64)
        }
        None => Err(None),
    }
}

// Publishes the versions up to a place, beside so many views in another thread.
fn publish_beside<T: Threads + Sync, R: Wait + Drop + Send>(
    rt: &T,
    publisher: &mut Publisher<R>,
    viewer: &mut Viewer,
    versions: &[Arc<Version>],
    last: usize,
    views: usize,
) -> Answer {
    let (has_published, has_kept) = join(
        rt,
        || publish_up_to(publisher, versions, last),
        || never_back(viewer, views),
    );
    if has_published && has_kept {
        Ok(last as u64)
    } else {
        Err(None)
    }
}

impl<R: Wait + Drop + Send> Desk<R> {
    // Publishes the version at a place, of which so many of the viewers learn.
    fn teach(&mut self, versions: &[Arc<Version>], place: usize, count: usize) -> Answer {
        let note = publish_at(&mut self.publisher, versions, place)?;
        for viewer in self.viewers.iter_mut().take(count) {
            if let Err(fault) = viewer.learn(&note) {
                return Err(fault.number());
            }
        }
        noted(&note)
    }

    // Publishes the version at a place in the other pair, and a viewer of this pair learns of it.
    fn mislead(&mut self, versions: &[Arc<Version>], place: usize, viewer: usize) -> Answer {
        let note = publish_at(&mut self.other, versions, place)?;
        match self.viewers.get_mut(viewer) {
            Some(viewer) => match viewer.learn(&note) {
                Ok(()) => noted(&note),
                Err(fault) => Err(fault.number()),
            },
            None => Err(None),
        }
    }

    // Publishes the versions up to a place, beside so many views of the first viewer.
    fn publish_beside<T: Threads + Sync>(
        &mut self,
        rt: &T,
        versions: &[Arc<Version>],
        last: usize,
        views: usize,
    ) -> Answer {
        match self.viewers.get_mut(0) {
            Some(viewer) => {
                publish_beside(rt, &mut self.publisher, viewer, versions, last, views)
            }
            None => Err(None),
        }
    }

    // Obeys a command.
    fn obey<T: Threads + Sync>(&mut self, rt: &T, versions: &[Arc<Version>], line: &str) -> Answer {
        let (word, first, second) = read(line);
        match word {
            "version" => number_at(versions, first),
            "publish" => self.teach(versions, first, second),
            "last" => told(self.publisher.last()),
            "see" => see_by(self.viewers.get_mut(first)),
            "near" => see_near(self.viewers.get_mut(first), second as u64),
            "all" => all_see(&mut self.viewers, first as u64),
            "hold" => hold_all(&mut self.viewers, &mut self.held),
            "held" => count_shown(&self.held, first as u64),
            "add" => add_all(&mut self.publisher, &mut self.viewers, first),
            "drop" => let_go(&mut self.viewers),
            "fresh" => go_on(&mut self.publisher, self.viewers.get_mut(first)),
            "other" => go_on(&mut self.other, self.viewers.get_mut(first)),
            "mislead" => self.mislead(versions, first, second),
            "beside" => self.publish_beside(rt, versions, first, second),
            _ => Err(None),
        }
    }

    // Obeys each command, and shows what it comes to.
    fn obey_all<T: Print + Threads + Sync>(
        &mut self,
        rt: &T,
        versions: &[Arc<Version>],
        input: &str,
    ) -> io::Result<()> {
        for line in input.lines() {
            println!(rt; "{line}: {:?}", self.obey(rt, versions, line))?;
        }
        Ok(())
    }
}

// A pair that shows the version at a place, with so many viewers.
fn open<R: Wait + Drop>(
    rt: R,
    alloc: Global,
    versions: &[Arc<Version>],
    place: usize,
    viewers: usize,
) -> Result<(Publisher<R>, Vec<Viewer>), PairFault> {
    let Some(version) = versions.get(place) else {
        return Err(PairFault::Memory);
    };
    let Ok(first) = Arc::try_clone(version) else {
        return Err(PairFault::Memory);
    };
    pair(rt, alloc, first, viewers)
}

// A pair with so many viewers, and another one with none but one that is let go.
fn open_both<'a, R: Wait>(
    rt: &'a R,
    alloc: Global,
    versions: &[Arc<Version>],
    place: usize,
    viewers: usize,
) -> Result<Desk<&'a R>, PairFault> {
    let (publisher, viewers) = open(rt, alloc, versions, place, viewers)?;
    let (other, _) = open(rt, alloc, versions, place, 1)?;
    Ok(Desk {
        publisher,
        viewers,
        held: Vec::new(alloc),
        other,
    })
}

// Plays the commands over a pair, or shows the number of why there is none.
fn play_over<R: Print + Threads + Wait + Sync>(
    rt: &R,
    alloc: Global,
    versions: &[Arc<Version>],
    place: usize,
    viewers: usize,
    input: &str,
) -> io::Result<()> {
    match open_both(rt, alloc, versions, place, viewers) {
        Ok(mut desk) => desk.obey_all(rt, versions, input),
        Err(fault) => println!(rt; "no pair: {:?}", fault.number()),
    }
}

/// Plays the commands of a case over a pair. The words are how many versions follow the first one,
/// the place of the one that the pair shows, and how many viewers it has.
pub fn play_pair<R: Print + Threads + Wait + Sync>(
    rt: &R,
    alloc: Global,
    words: &[&str],
    input: &str,
) -> io::Result<()> {
    let mut versions = Vec::new(alloc);
    match fill(rt, alloc, &mut versions, count_at(words, 0)) {
        Some(()) => {
            let (place, viewers) = (count_at(words, 1), count_at(words, 2));
            play_over(rt, alloc, &versions, place, viewers, input)
        }
        None => Err(io::Error::from(io::ErrorKind::OutOfMemory)),
    }
}
