#![tactic(auto)]
// A text taken word by word: the first word's key, and where the next word starts.
ghost use Rattle.std.specs.Prelude.{◌≡◌, cond, ◌+◌, ◌≤◌, ◌<◌, ◌%◌, ltb, length};
ghost use Rattle.tokens.specs.Tokens.{Begun, Took};
ghost use Rattle.tokens.specs.Turns.{lows, letters, last_key, Ends};

// The key of a text's first word, and how many bytes the word and the gap behind it have.
#[derive(Clone, Copy)]
pub struct Token {
    pub key: u32,
    pub next: usize,
}

// A key is what is left of a word's bytes as one number, divided by this. It divides 2 ^ 64 less 1, so that eight bytes count the same wherever in a
// word they stand.
const KEYS: u64 = 823685;

// What stands above the last byte, so that the length of a word counts. With these two numbers no words of different meanings have one key, and the
// keys find places of their own in the tables of meanings.
const END: u64 = 62;

// The key of the empty word.
pub const EMPTY: u32 = END as u32;

const SIXTY_FOURS: u64 = 0x4040_4040_4040_4040;

const TWOS: u64 = 0x0202_0202_0202_0202;

// 64 for each of a number's eight bytes that is a gap, below 64 and without the 2 that the ASCII apostrophe has: so one test shows a word that goes on.
fn low(w: u64) -> u64
    ensures { result ≡ lows 8 w }
{
    SIXTY_FOURS - ((w | w / 2 | (w & TWOS) * 32) & SIXTY_FOURS)
}

// The end of a word, of which the bytes before i add k to the key: of the eight bytes w from i on one is a gap. Past the n bytes of the text there
// are zeros. However many letters there are, no branch is taken.
fn end(k: u64, w: u64, i: usize, n: usize) -> Token
    requires { (k < 823685) × Ends w × (i + letters 8 w ≤ n) }
    ensures { (result.key ≡ (k + last_key (letters 8 w) w) % 823685) × (result.next ≡ cond (ltb (i + letters 8 w) n) (i + letters 8 w + 1) (i + letters 8 w)) }
{
    let z = low(w).trailing_zeros();
    let b = 1 << (z - 6);
    let e = i + (z / 8) as usize;
    Token {
        key: ((k + (w % b + b * END)) % KEYS) as u32,
        next: if e < n { e + 1 } else { e },
    }
}

// The end of a text's first word, of which the bytes before i add k to the key, where fewer than eight bytes are left.
fn last(s: &[u8], i: usize, k: u64) -> Token
    requires { (i ≤ length s.now) × (length s.now < i + 8) × (k < 823685) × Begun s.now i k }
    ensures { Took s.now result.key result.next }
{
    let n = s.len();
    let mut w: u64 = 0;
    for j in (i..n).rev() {
        w = u64::from(s[j]) + w * 256;
    }
    end(k, w, i, n)
}

// The first word of a text. A reader spends its time here, on branches that go now this way and now that: a turn of eight bytes has one.
pub fn first(s: &[u8]) -> Token
    ensures { Took s.now result.key result.next }
{
    let n = s.len();
    let (eights, _) = s.as_chunks::<8>();
    let mut k: u64 = 0;
    for (turn, eight) in eights.iter().enumerate() {
        let w = u64::from_le_bytes(*eight);
        if low(w) != 0 {
            return end(k, w, turn * 8, n);
        }
        k = (k + w % KEYS) % KEYS;
    }
    last(s, n - n % 8, k)
}
