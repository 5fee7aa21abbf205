ghost use Rattle.std.specs.Prelude.{◌≡◌, decimal};
ghost use Rattle.codec.specs.Codes.{answered, held};
ghost use Rattle.sheet.specs.Sheet.{refusal_line};

use crate::refusal::SheetRefusal;
use arrayvec::ArrayString;
use itoa::Buffer;

// Writes a text in front of a buffer, and answers how many bytes it has.
// Each text is promised by the call that writes it, with the same two words, `answered` and `held`.
fn write_text(out: &mut [u8], text: &str) -> Result<usize, SheetRefusal>
    ensures answers { result ≡ answered SheetRefusal.Short text.now out.old }
    ensures after { out.new ≡ held text.now out.old }
{
    if out.len() < text.len() {
        return Err(SheetRefusal::Short);
    }
    out[..text.len()].copy_from_slice(text.as_bytes());
    Ok(text.len())
}

// Writes a number in decimal digits, without leading zeros, and answers how many bytes it wrote.
pub fn write_decimal(out: &mut [u8], n: u16) -> Result<usize, SheetRefusal>
    ensures answers { result ≡ answered SheetRefusal.Short (decimal n) out.old }
    ensures after { out.new ≡ held (decimal n) out.old }
{
    let mut digits = Buffer::new();
    write_text(out, digits.format(n))
}

// Writes the line that a program prints for a refusal, and answers how many bytes it wrote.
// By its number: refusals to read and to write are of two types, and one line serves both.
pub fn write_refusal(out: &mut [u8], number: u8) -> Result<usize, SheetRefusal>
    ensures answers { result ≡ answered SheetRefusal.Short (refusal_line number) out.old }
    ensures after { out.new ≡ held (refusal_line number) out.old }
{
    let mut digits = Buffer::new();
    // the word has seven bytes, a number of one byte at most three digits
    let mut line = ArrayString::<12>::new();
    line.push_str("REFUSED");
    line.push(',');
    line.push_str(digits.format(number));
    line.push('\n');
    write_text(out, line.as_str())
}
