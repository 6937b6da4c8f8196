// Pieces of text, each written to a lent buffer behind the one before.
ghost use Rattle.std.specs.Prelude.{◌≡◌, [], ◌∷◌, ◌+◌, ◌<◌, ◌≤◌, length};
ghost use Rattle.stage.specs.Decimal.{numeral};
ghost use Rattle.text.specs.Written.{Written};

// A lent buffer, and the place where the next piece goes.
#[derive(Drop)]
pub struct Writer<'a> {
    pub text: &'a mut [u8],
    pub at: usize,
}

impl<'a> Writer<'a> {
    pub fn new(text: &'a mut [u8]) -> Writer<'a>
        ensures same { result.text.ghost_name ≡ text.entry.ghost_name }
        ensures start { (result.text.now ≡ text.old) × (result.at ≡ 0) }
    {
        Writer { text, at: 0 }
    }

    pub fn put_byte(&mut self, b: u8)
        requires { self.old.at < length self.old.text.now }
        ensures same { self.new.text.ghost_name ≡ self.old.text.ghost_name }
        ensures written { Written self.old.text.now self.old.at (b ∷ []) self.new.text.now self.new.at }
    {
        self.text[self.at] = b;
        self.at += 1;
    }

    // By a counted loop, so that a program that counts otherwise is refused for what it writes.
    pub fn put_bytes(&mut self, piece: &[u8])
        requires { self.old.at + length piece.now ≤ length self.old.text.now }
        ensures same { self.new.text.ghost_name ≡ self.old.text.ghost_name }
        ensures written { Written self.old.text.now self.old.at piece.now self.new.text.now self.new.at }
    {
        let mut i = 0;
        while i < piece.len() {
            self.put_byte(piece[i]);
            i += 1;
        }
    }

    // A number in decimal digits, without leading zeros.
    pub fn put_number(&mut self, n: u32)
        requires { self.old.at + length (numeral n) ≤ length self.old.text.now }
        ensures same { self.new.text.ghost_name ≡ self.old.text.ghost_name }
        ensures written { Written self.old.text.now self.old.at (numeral n) self.new.text.now self.new.at }
    {
        let one = n < 10;
        if one {
            self.put_byte(digit(n));
        } else {
            self.put_number(n / 10);
            self.put_byte(digit(n % 10));
        }
    }

    // A number behind a separator.
    pub fn put_field(&mut self, separator: u8, n: u32)
        requires { self.old.at + length (separator ∷ numeral n) ≤ length self.old.text.now }
        ensures same { self.new.text.ghost_name ≡ self.old.text.ghost_name }
        ensures written { Written self.old.text.now self.old.at (separator ∷ numeral n) self.new.text.now self.new.at }
    {
        self.put_byte(separator);
        self.put_number(n);
    }
}

fn digit(n: u32) -> u8
    requires { n < 10 }
    ensures { result ≡ 48 + n }
{
    b'0' + n as u8
}

// How many decimal digits a number has, without leading zeros. The library has no logarithm to base 10, so a loop divides.
pub fn digit_count(n: u32) -> usize
    ensures { (result ≡ length (numeral n)) × (result ≤ 10) }
{
    let mut count = 1;
    let mut rest = n;
    while 10 <= rest {
        rest /= 10;
        count += 1;
    }
    count
}
