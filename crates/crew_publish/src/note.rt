//! Notes of what was published.
ghost use Rattle.std.specs.Prelude.{◌≡◌, length};
ghost use Rattle.std.specs.Arc.{arc_value};
ghost use Rattle.crew_publish.specs.Views.{IsNoteOf, IsViewOf, note_of};

use crate::publisher::Publisher;
use crew_version::Version;
use std::marker::Model;
use std::snapshot::Snapshot;
use std::sync::{Arc, Wait};

/// A note of a publication by a publisher with this runtime, for viewers to learn. It keeps the
/// version.
///
/// A contract sees the version, its number, how many entries it has, and the list that it ended,
/// which is a chain.
pub struct Note<R: Wait + Drop> {
    version: Arc<Version>,
    publisher: Snapshot<Publisher<R>>,
}

impl<R: Wait + Drop> Drop for Note<R> {
    fn drop(self) {
        let Self {
            version: _,
            publisher: _,
        } = self;
    }
}

impl<R: Wait + Drop> Model for Note<R> {
    ghost use Rattle.std.specs.Arc.{arc_value};
    ghost use Rattle.crew_publish.specs.Views.{Noted, IsViewOf, note_of};

    ghost Value = { Noted };

    ghost view = { λ n. note_of n.publisher.value.list (arc_value n.version) };

    ghost invariant = { λ n. IsViewOf n.publisher.value.list (arc_value n.version) };
}

impl<R: Wait + Drop> Note<R> {
    // The note of what was published last.
    pub(crate) fn of(publisher: &Publisher<R>, version: Arc<Version>) -> Note<R>
        requires { IsViewOf publisher.now.list (arc_value version) }
        ensures { result ≡ note_of publisher.now.list (arc_value version) }
    {
        Note {
            version,
            publisher: Snapshot::of(publisher),
        }
    }

    /// The version, which the list of the note ends with.
    pub fn version(&self) -> &Version
        ensures value { result.now ≡ self.now.version }
        ensures last { IsViewOf self.now.list self.now.version }
    {
        &self.version
    }

    /// The number of the version.
    pub fn number(&self) -> u64
        ensures value { result ≡ self.now.number }
        ensures version { result ≡ self.now.version.number }
        ensures last { IsNoteOf self.now.list self.now.number self.now.count }
    {
        self.version.number()
    }

    /// How many entries the version has.
    pub fn count(&self) -> usize
        ensures value { result ≡ self.now.count }
        ensures version { result ≡ length self.now.version.entries }
    {
        self.version.count()
    }
}
