//! What the words of a command say.

use crew_flights::{Code, FlightId};
use crew_pairing::{Key, Leg};

/// What a command comes to: a number, or the number of a fault, and none where memory is wanting or
/// what it names isn't there.
pub type Answer = Result<u64, Option<u8>>;

/// A count or a place; 0 where the word is none.
pub fn count_of(word: &str) -> usize {
    word.parse::<usize>().unwrap_or(0)
}

/// The count at a place of some words; 0 where there is none.
pub fn count_at(words: &[&str], place: usize) -> usize {
    match words.get(place) {
        Some(word) => count_of(word),
        None => 0,
    }
}

/// The first of some words, and the others; an empty one where there is none.
pub fn parted<'a, 'b>(words: &'b [&'a str]) -> (&'a str, &'b [&'a str]) {
    match words {
        [word, rest @ ..] => (*word, rest),
        [] => ("", words),
    }
}

/// The word of a command, and its numbers, which are at most two.
pub fn read(line: &str) -> (&str, usize, usize) {
    let mut words = line.split(' ');
    let word = words.next().unwrap_or("");
    let first = count_of(words.next().unwrap_or(""));
    (word, first, count_of(words.next().unwrap_or("")))
}

/// A code of three letters.
pub fn code_of(word: &str) -> Option<Code> {
    let [first, second, third] = word.as_bytes() else {
        return None;
    };
    Code::new([*first, *second, *third])
}

/// A number of points.
pub fn points_of(word: &str) -> Option<i64> {
    word.parse::<i64>().ok()
}

/// The number of a flight.
pub fn flight_id(word: &str) -> Option<FlightId> {
    FlightId::new(word.parse::<u32>().ok()?)
}

/// The key of a duty of one leg.
pub fn key_of(word: &str) -> Option<Key> {
    Some(Key::of(Leg::new(flight_id(word)?, false)))
}
