// Bytes and numbers written into a buffer. Every writer takes the position to write at and answers the position after what it
// wrote; what does not fit is dropped, so that no writer asks for room.
#![tactic(auto)]

ghost use Rattle.std.specs.Prelude.{◌≡◌, [], ◌∷◌, ◌++◌, ◌+◌, ◌<◌};
ghost use Rattle.verdict.specs.Text.{decimal};
ghost use Rattle.text.specs.Buffer.{Wrote, digit_text};

// The buffer: it holds any line of the readout.
pub type TextBuffer = [u8; 131072];

// One byte.
pub fn put_byte(text: &mut TextBuffer, at: usize, b: u8) -> usize
    ensures { Wrote text.old text.new at result (b ∷ []) }
{
    if at < text.len() {
        text[at] = b;
        at + 1
    } else {
        at
    }
}

// Several bytes.
pub fn put_word(text: &mut TextBuffer, at: usize, word: &[u8]) -> usize
    ensures { Wrote text.old text.new at result word.now }
{
    let mut end = at;
    for &b in word {
        end = put_byte(text, end, b);
    }
    end
}

// The digit of a number below ten.
fn digit(n: u16) -> u8
    requires { n < 10 }
    ensures { result ≡ 48 + n }
{
    b'0' + (n as u8)
}

// The last digit of a number, and nothing for 0.
fn put_digit(text: &mut TextBuffer, at: usize, n: u16) -> usize
    ensures { Wrote text.old text.new at result (digit_text n) }
{
    if n == 0 {
        return at;
    }
    put_byte(text, at, digit(n % 10))
}

// A number in decimal: five digits at most, without the zeros before the first one.
pub fn put_decimal(text: &mut TextBuffer, at: usize, n: u16) -> usize
    ensures { Wrote text.old text.new at result (decimal n) }
{
    let thousands = put_digit(text, at, n / 10000);
    let hundreds = put_digit(text, thousands, n / 1000);
    let tens = put_digit(text, hundreds, n / 100);
    let ones = put_digit(text, tens, n / 10);
    put_byte(text, ones, digit(n % 10))
}

// A letter and a number: `s` with that of a symbol, `v` with that of a variable.
pub fn put_lettered(text: &mut TextBuffer, at: usize, letter: u8, n: u16) -> usize
    ensures { Wrote text.old text.new at result (letter ∷ decimal n) }
{
    let number = put_byte(text, at, letter);
    put_decimal(text, number, n)
}

// `v`, the number of a variable, a dot and its index.
pub fn put_variable(text: &mut TextBuffer, at: usize, variable: u16, index: u16) -> usize
    ensures { Wrote text.old text.new at result (118 ∷ (decimal variable ++ (46 ∷ decimal index))) }
{
    let dot = put_lettered(text, at, b'v', variable);
    let last = put_byte(text, dot, b'.');
    put_decimal(text, last, index)
}
