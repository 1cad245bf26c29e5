//! A line in words.

/// A line in words, and the number of each. A word that isn't there is empty, and what is no number
/// stands for 0.
#[derive(Clone, Copy)]
pub struct Call<'a> {
    /// What follows the first word.
    pub text: &'a str,
    pub words: [&'a str; 4],
    pub numbers: [i64; 4],
}

/// What a line says.
pub fn call_of(line: &str) -> Call<'_> {
    let mut left = line.split_whitespace();
    let mut words = [""; 4];
    let mut numbers = [0i64; 4];
    for place in 0..4 {
        let word = left.next().unwrap_or("");
        words[place] = word;
        numbers[place] = word.parse::<i64>().unwrap_or(0);
    }
    let text = match line.split_once(' ') {
        Some((_, text)) => text,
        None => "",
    };
    Call {
        text,
        words,
        numbers,
    }
}
