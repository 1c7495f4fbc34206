//! The choices of a row: a range of numbers or a list of words stands for each of its members in
//! turn.

/// One choice among all that a row's ranges and lists leave, by its number.
#[derive(Drop)]
pub struct Choices {
    /// What is left of the number for the ranges and lists to come.
    rest: u64,
    /// How many choices those so far leave.
    count: u64,
}

impl Choices {
    pub fn new(choice: u64) -> Choices {
        Choices {
            rest: choice,
            count: 1,
        }
    }

    /// How many choices there are, once all ranges and lists were seen.
    pub fn count(&self) -> u64 {
        self.count
    }

    /// A number, or one of a range `A..B`, both ends in it.
    pub fn number(&mut self, word: &str) -> Option<u32> {
        let Some((first, last)) = word.split_once("..") else {
            return word.parse().ok();
        };
        let first: u32 = first.parse().ok()?;
        let last: u32 = last.parse().ok()?;
        let picked = self.pick(u64::from(last.checked_sub(first)?).checked_add(1)?);
        first.checked_add(u32::try_from(picked).ok()?)
    }

    /// The first three numbers of some words.
    pub fn numbers(&mut self, words: &str) -> [Option<u32>; 3] {
        let mut numbers = [None; 3];
        for (number, word) in numbers.iter_mut().zip(words.split_ascii_whitespace()) {
            *number = self.number(word);
        }
        numbers
    }

    /// A word, or one of a list of words with commas between.
    pub fn word<'a>(&mut self, words: &'a str) -> Option<&'a str> {
        let count = u64::try_from(words.split(',').count()).ok()?;
        let picked = self.pick(count);
        words.split(',').nth(usize::try_from(picked).ok()?)
    }

    /// The place among so many that this choice has.
    fn pick(&mut self, count: u64) -> u64 {
        if count == 0 {
            return 0;
        }
        let picked = self.rest % count;
        self.rest /= count;
        self.count = self.count.saturating_mul(count);
        picked
    }
}
