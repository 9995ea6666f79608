// Words from a file, as docs/CALLS.md has them: 64 bits each, least significant byte first. What
// bytes mean as words is proved; which bytes come from a file no contract can say.
//
// Only as many bytes are read as are asked for, so that nothing is held from call to call.

#![tactic(auto)]

ghost use Rattle.std.specs.Prelude.{◌≡◌, ◌++◌, ◌+◌, ◌*◌, ◌≤◌, ◌<◌, min, length, drop};
ghost use Rattle.words.specs.Words.{tab};
ghost use Rattle.text_input.specs.Little.{word_at, word_of};

// The descriptor of standard input.
pub const STDIN_FILENO: i32 = 0;

// The bytes of a word.
const WORD: usize = 8;

// How many words are read at a time: as many as io::buffer holds.
const BLOCK: usize = 512;

// The word in the eight bytes from `at` on.
pub fn word_at(bytes: &[u8], at: usize) -> u64
    requires { at + 8 ≤ length bytes.now }
    ensures { result ≡ word_at bytes.now at }
{
    u64::from_le_bytes(*bytes[at..].first_chunk().unwrap())
}

// The first n words of the bytes go to the front of w.
pub fn decode(bytes: &[u8], n: usize, w: &mut [u64])
    requires { (8 * n ≤ length bytes.now) × (n ≤ length w.old) }
    ensures { w.new ≡ tab (word_of bytes.now) 0 n ++ drop n w.old }
{
    for i in 0..n {
        w[i] = word_at(bytes, WORD * i);
    }
}

// Reads to the front of w, by way of the lent bytes, and answers how many whole words came.
fn read_through(fd: i32, bytes: &mut [u8], w: &mut [u64]) -> usize
    requires { length bytes.old ≡ 8 * length w.old }
    ensures { result ≤ length w.old }
{
    let came = io::read_full(fd, bytes) / WORD;
    decode(bytes, came, w);
    came
}

// The same, with room for the bytes of a block.
fn read_block(fd: i32, w: &mut [u64]) -> usize
    requires { length w.old ≤ 512 }
    ensures { result ≤ length w.old }
{
    let mut bytes = io::buffer();
    let end = WORD * w.len();
    read_through(fd, &mut bytes[..end], w)
}

// Reads words to the front of w until it is full, and answers how many came. An answer below w's
// length: the file ended, or a read failed. What is left of a broken word is passed over.
pub fn read_words(fd: i32, w: &mut [u64]) -> usize
    ensures { result ≤ length w.new }
{
    let mut done: usize = 0;
    for block in w.chunks_mut(BLOCK) {
        let came = read_block(fd, block);
        done += came;
        if came < block.len() {
            return done;
        }
    }
    done
}

// The next word, where the file has a whole one.
pub fn read_word(fd: i32) -> Option<u64> {
    let mut word = [0u64; 1];
    if read_words(fd, &mut word) < 1 {
        return None;
    }
    Some(word[0])
}

fn skip_block(fd: i32, count: usize) -> Option<()>
    requires { count ≤ 512 }
{
    let mut words = [0u64; BLOCK];
    if read_words(fd, &mut words[..count]) < count {
        return None;
    }
    Some(())
}

// Reads so many words and forgets them, where there are so many.
pub fn skip_words(fd: i32, count: u64) -> Option<()> {
    let blocks = count as usize / BLOCK;
    for _ in 0..blocks {
        skip_block(fd, BLOCK)?;
    }
    // A block costs its room, even one of no words.
    let rest = count as usize % BLOCK;
    if rest == 0 {
        return Some(());
    }
    skip_block(fd, rest)
}
