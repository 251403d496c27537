ghost use Rattle.std.specs.Prelude.{◌≡◌, ℕ, ◌<◌, ◌≤◌, take, drop, count_ones};
ghost use Rattle.tree.specs.DirtyMap.{bits_set, TopBit, TopOfWord, HighestBelow, with_bit};

// The dirty map in a register's words: words 22 to 31.
pub fn map_of(words: &[u64; 32]) -> [u64; 10]
    ensures { result ≡ take 10 (drop 22 words.now) }
{
    *words[22..].first_chunk().unwrap()
}

// How many nodes a dirty map names.
pub fn dirty_nodes(map: &[u64; 10]) -> u32
    ensures { result ≡ bits_set map.now }
{
    map.iter().map(|word| word.count_ones()).sum()
}

// The highest set bit of a word below a bound of at most 64.
fn top_bit(word: u64, below: u32) -> Option<u32>
    requires { below ≤ 64 }
    ensures { TopBit word below result }
{
    let low = if below < 64 {
        word & ((1 << below) - 1)
    } else {
        word
    };
    (low != 0).then(|| 63 - low.leading_zeros())
}

// The highest set bit of word i of a dirty map below a bound, both counted over the whole map.
fn top_of_word(i: usize, word: u64, below: usize) -> Option<usize>
    requires { i < 10 }
    ensures { TopOfWord i word below result }
{
    let first = 64 * i;
    let room = below.checked_sub(first)?.min(64) as u32;
    Some(first + top_bit(word, room)? as usize)
}

// The highest dirty node below a bound, both counted from the first node.
pub fn highest_below(map: &[u64; 10], below: usize) -> Option<usize>
    ensures { HighestBelow map.now below result }
{
    map.iter()
        .enumerate()
        .rev()
        .find_map(|(i, word)| top_of_word(i, *word, below))
}

// Sets one of the 640 bits of a dirty map.
pub(crate) fn set_bit(map: &mut [u64; 10], place: usize)
    requires { place < 640 }
    ensures { map.new ≡ with_bit map.old place }
{
    map[place / 64] |= 1 << (place % 64);
}
