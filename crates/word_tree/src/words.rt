//! Single words of a tree, or of a flat row: the lowest and the highest bit, and one bit set or cleared.
ghost use Rattle.std.specs.Prelude.{◌≡◌, ◌*◌, ◌/◌, ◌<◌, ◌≤◌, length, slice_index_or};
ghost use Rattle.word_tree.specs.Tree.{IsLowest, IsHighest, IsPut};

/// The lowest bit of a word from `from` on that is 1.
pub fn lowest(word: u64, from: u32) -> Option<u32>
    requires { from ≤ 64 }
    ensures { IsLowest word from result }
{
    if from == 64 {
        return None;
    }
    let rest = word >> from;
    if rest == 0 {
        None
    } else {
        Some(from + rest.trailing_zeros())
    }
}

/// The highest bit of a word below `to` that is 1.
pub fn highest(word: u64, to: u32) -> Option<u32>
    requires { to ≤ 64 }
    ensures { IsHighest word to result }
{
    if to == 0 {
        return None;
    }
    let rest = word & (u64::MAX >> (64 - to));
    if rest == 0 {
        None
    } else {
        Some(63 - rest.leading_zeros())
    }
}

/// Sets a bit, and answers its word as it was.
pub fn put(words: &mut [u64], at: u32) -> u64
    requires { at < length words.old * 64 }
    ensures was { result ≡ slice_index_or words.old (at / 64) 0 }
    ensures len { length words.new ≡ length words.old }
    ensures put { IsPut words.old words.new at 1 }
{
    let word = (at / 64) as usize;
    let was = words[word];
    words[word] = was | 1 << (at % 64);
    was
}

/// Clears a bit, and answers what its word is then.
pub(crate) fn cut(words: &mut [u64], at: u32) -> u64
    requires { at < length words.old * 64 }
    ensures left { result ≡ slice_index_or words.new (at / 64) 0 }
    ensures less { result ≤ slice_index_or words.old (at / 64) 0 }
    ensures len { length words.new ≡ length words.old }
    ensures cut { IsPut words.old words.new at 0 }
{
    let word = (at / 64) as usize;
    let left = words[word] & !(1 << (at % 64));
    words[word] = left;
    left
}

/// The lowest bit that is 1 of a word that isn't 0.
pub(crate) fn first_one(word: u64) -> u32
    requires { 0 < word }
    ensures { IsLowest word 0 (Some result) }
{
    word.trailing_zeros()
}

/// The highest bit that is 1 of a word that isn't 0.
pub(crate) fn last_one(word: u64) -> u32
    requires { 0 < word }
    ensures { IsHighest word 64 (Some result) }
{
    63 - word.leading_zeros()
}
