ghost use Rattle.std.specs.Prelude.{◌≡◌, ℕ, ◌+◌, ◌%◌, ◌&&◌, ◌==◌, List, length, take, nat_le, is_some, IfSome};
ghost use Rattle.days.specs.Input.{words_of, day_of, bytes_behind};

// The bytes of the longest day: the number of book words, 8,264 book words and 256 slips of 13 words.
pub const MOST_BYTES: usize = 46_372;

pub const MOST_WORDS: usize = MOST_BYTES / 4;

// So many bytes behind the first four show that a day is too long.
const ENOUGH_BEHIND: usize = MOST_BYTES + 1 - 4;

// Writes the words of the input into the table and hands them out; none where the last word is cut short or the table
// is too small. In a word the highest byte stands first.
pub(crate) fn fill<'a>(bytes: &[u8], table: &'a mut [u32; MOST_WORDS]) -> Option<&'a [u32]>
    ensures words { IfSome result (λ words. words.now ≡ words_of bytes.now) }
    ensures fits { is_some result ≡ (length bytes.now % 4 == 0 && nat_le (length bytes.now) MOST_BYTES) }
{
    let (fours, []) = bytes.as_chunks::<4>() else {
        return None;
    };
    let words = table.get_mut(..fours.len())?;
    for (place, four) in fours.iter().enumerate() {
        words[place] = u32::from_be_bytes(*four);
    }
    Some(words)
}

// How many bytes behind the first four are worth reading: none if the first word is missing or says more than a day may
// have, else so many that a day that is too long shows.
pub fn bytes_behind(head: &[u8]) -> usize
    ensures count { result ≡ bytes_behind head.now }
    ensures enough { (input : List ℕ) → take 4 input ≡ head.now → day_of (take (4 + result) input) ≡ day_of input }
{
    match head.first_chunk() {
        Some(first) if (u32::from_be_bytes(*first) as usize) < MOST_WORDS => ENOUGH_BEHIND,
        _ => 0,
    }
}
