//! What is printed on a line: bytes, words, numbers, and the line of a refusal.
#![tactic(auto)]

ghost use Rattle.std.specs.Prelude.{◌≡◌, [], ◌∷◌, ◌+◌, ◌≤◌, ◌<◌, length, drop};
ghost use Rattle.calls.specs.Refusals.{refusal};
ghost use Rattle.sheets.specs.Text.{decimal};
ghost use Rattle.sheets.specs.Sheet.{print_values, print_refusal};
ghost use Rattle.lines.specs.Lines.{Printed, word_then, bracketed};
ghost use Rattle.lines.specs.Puts.{Puts, PutsIn};

use calls::Refusal;
use numbers::Numbers;

// A buffer that is written from its front on, and the place of the next byte: past the end nothing is written, and the places are counted
// all the same.
#[derive(Drop)]
pub struct Line<'a> {
    out: &'a mut [u8],
    pub at: usize,
}

impl<'a> Line<'a> {
    // A buffer of which nothing is written yet.
    #[inline]
    pub fn new(out: &'a mut [u8]) -> Line<'a>
        ensures same { result.out.ghost_name ≡ out.entry.ghost_name }
        ensures kept { result.out.now ≡ out.old }
        ensures front { result.at ≡ 0 }
    {
        Line { out, at: 0 }
    }

    // Writes a byte.
    #[inline]
    fn put_byte(&mut self, byte: u8)
        requires { self.old.at < 4294967296 }
        ensures same { self.new.out.ghost_name ≡ self.old.out.ghost_name }
        ensures printed { Puts self.old (byte ∷ []) self.new }
    {
        if self.at < self.out.len() {
            self.out[self.at] = byte;
        }
        self.at += 1;
    }

    // Writes a word.
    pub fn put_word(&mut self, w: &[u8])
        requires { self.old.at + length w.now ≤ 4294967296 }
        ensures same { self.new.out.ghost_name ≡ self.old.out.ghost_name }
        ensures printed { Puts self.old w.now self.new }
    {
        for byte in w {
            self.put_byte(*byte);
        }
    }

    // Writes a number in decimal digits: those of its tens, then the last. A digit is made a byte by `as`: `try_from` would have a case
    // that does not come.
    fn put_number(&mut self, n: usize)
        requires { self.old.at ≤ 2147483648 }
        ensures same { self.new.out.ghost_name ≡ self.old.out.ghost_name }
        ensures printed { PutsIn 20 self.old (decimal n) self.new }
    {
        if n < 10 {
            return self.put_byte(b'0' + n as u8);
        }
        self.put_number(n / 10);
        self.put_byte(b'0' + (n % 10) as u8);
    }

    // Writes a word and the number behind it.
    pub fn put_both(&mut self, w: &[u8], n: usize)
        requires { self.old.at + length w.now ≤ 2147483648 }
        ensures same { self.new.out.ghost_name ≡ self.old.out.ghost_name }
        ensures printed { PutsIn (length w.now + 20) self.old (word_then w.now n) self.new }
    {
        self.put_word(w);
        self.put_number(n);
    }

    // Writes a value behind its word, up to the bracket that closes it.
    fn put_value(&mut self, w: &[u8], n: usize)
        requires { self.old.at + length w.now ≤ 1000 }
        ensures same { self.new.out.ghost_name ≡ self.old.out.ghost_name }
        ensures printed { PutsIn (length w.now + 21) self.old (bracketed w.now n) self.new }
    {
        self.put_both(w, n);
        self.put_word(b")");
    }

    // Writes the values of a refusal.
    fn put_values(&mut self, refused: Refusal)
        requires { self.old.at ≤ 100 }
        ensures same { self.new.out.ghost_name ≡ self.old.out.ghost_name }
        ensures printed { PutsIn 100 self.old (print_values (drop 1 (refusal refused))) self.new }
    {
        match refused {
            Refusal::LineForm { line } | Refusal::LinePort { line } => {
                self.put_value(b" (line ", line);
            }
            Refusal::InputLoad { port, cells } | Refusal::OutputLoad { port, cells } => {
                self.put_value(b" (port ", port);
                self.put_value(b" (cells ", cells);
            }
            Refusal::LinkLoad {
                output,
                link,
                cells,
            } => {
                self.put_value(b" (output ", output);
                self.put_value(b" (link ", link);
                self.put_value(b" (cells ", cells);
            }
            _ => {}
        }
    }
}

// Writes the line of a refusal; a sheet does not cause each of them.
pub fn put_refusal(out: &mut [u8], refused: Refusal) -> usize
    ensures { Printed out.old 0 (print_refusal (refusal refused)) out.new result }
{
    let mut line = Line::new(out);
    line.put_both(b"(refused ", Numbers::from(refused).number);
    line.put_values(refused);
    line.put_word(b")\n");
    line.at
}
