// Decimal numbers of any length, read at a place of a text. A place may lie anywhere, also behind the text's end.
ghost use Rattle.std.specs.Prelude.{◌≡◌, ◌+◌, ◌-◌, ◌*◌, min, length, take, take_while, drop, fold};
ghost use Rattle.std.specs.Char.{is_ascii_digit};
ghost use Rattle.text.specs.Numbers.{NumberRead};

// A number, or the limit where it is larger; how many digits it has, for callers that limit them; and the place behind them, which tells the caller
// where in the text it is.
#[derive(Clone, Copy, Debug, PartialEq, Eq)]
pub struct Number {
    pub value: u64,
    pub digits: usize,
    pub at: usize,
}

// What stands at a place and behind it. A slice, since a `skip` of an iterator would go there byte by byte.
#[tactic(auto, using(crate::proofs::Numbers::part_from))]
fn part_at(text: &[u8], at: usize) -> &[u8]
    ensures { result.now ≡ drop at text.now }
{
    &text[at.min(text.len())..]
}

// How many digits a text begins with, or `most` where there are more.
fn digits_first(text: &[u8], most: usize) -> usize
    ensures { result ≡ length (take_while is_ascii_digit (take most text.now)) }
{
    text.iter()
        .take(most)
        .take_while(|b| b.is_ascii_digit())
        .count()
}

// A number with one digit more, at most `limit`.
fn with_digit(n: u64, b: u8, limit: u64) -> u64
    ensures { result ≡ min (10 * n + (b - 48)) limit }
{
    let digit = b.saturating_sub(b'0');
    let m = n.saturating_mul(10).saturating_add(u64::from(digit));
    m.min(limit)
}

// The number of some digits, at most `limit`.
fn value_of(digits: &[u8], limit: u64) -> u64
    ensures { result ≡ fold (λ n b. min (10 * n + (b - 48)) limit) 0 digits.now }
{
    digits.iter().fold(0, |n, b| with_digit(n, *b, limit))
}

// The digits that stand at `at`, or the first `most` of them. With a limit of 2^32 each number of 32 bits is told from those above.
pub fn read_number(text: &[u8], at: usize, most: usize, limit: u64) -> Option<Number>
    ensures { NumberRead text.now at most limit result }
{
    let part = part_at(text, at);
    let digits = digits_first(part, most);
    let none = digits == 0;
    if none {
        return None;
    }
    Some(Number {
        value: value_of(&part[..digits], limit),
        digits,
        at: at + digits,
    })
}
