// Puts bytes, numbers and literals.
ghost use Rattle.std.specs.Prelude.{◌≡◌, ◌+◌, ◌^◌, ◌<◌, ◌≤◌, [], ◌∷◌, ◌++◌, length, if◌then◌else◌, decimal};
ghost use Rattle.dimacs_write.specs.Puts.{Put, literal_of};
ghost use Rattle.dimacs_write.specs.Texts.{literal_text};

use super::Output;

#[tactic(auto, using(crate::proofs::Buffers::puts))]
impl<'a> Output<'a> {
    // Nothing is put yet.
    pub fn new(buffer: &'a mut [u8]) -> Self
        ensures empty { result.length ≡ 0 }
        ensures bytes { result.buffer.now ≡ buffer.old }
        ensures same_buffer { result.buffer.ghost_name ≡ buffer.entry.ghost_name }
    {
        Output { buffer, length: 0 }
    }

    // Puts one byte.
    fn byte(&mut self, byte: u8)
        requires low { self.old.length < 2 ^ 63 }
        ensures put { Put self.old (byte ∷ []) self.new }
    {
        let buffer = &mut *self.buffer;
        if self.length < buffer.len() {
            buffer[self.length] = byte;
        }
        self.length += 1;
    }

    // Puts a number in base ten.
    pub fn number(&mut self, number: usize)
        requires low { self.old.length + number < 2 ^ 62 }
        ensures put { Put self.old (decimal number) self.new }
    {
        if number < 10 {
            self.byte(b'0' + number as u8);
        } else {
            self.number(number / 10);
            self.byte(b'0' + (number % 10) as u8);
        }
    }

    // Puts bytes as they are.
    pub fn bytes(&mut self, bytes: &[u8])
        requires low { self.old.length + length bytes.now < 2 ^ 60 }
        ensures put { Put self.old bytes.now self.new }
    {
        for byte in bytes {
            self.byte(*byte);
        }
    }

    // Puts a number of at most two digits, and a space.
    pub fn spaced(&mut self, number: usize)
        requires low { self.old.length < 2 ^ 60 }
        requires few { number ≤ 64 }
        ensures put { Put self.old (decimal number ++ (32 ∷ [])) self.new }
        ensures most { self.new.length ≤ self.old.length + 3 }
    {
        self.number(number);
        self.byte(b' ');
    }

    // Puts the literal of variable k + 1 and a space.
    fn literal(&mut self, opened: bool, k: usize)
        requires low { self.old.length < 2 ^ 59 }
        requires few { k < 64 }
        ensures put { Put self.old (literal_text (literal_of opened k)) self.new }
        ensures most { self.new.length ≤ self.old.length + 4 }
    {
        if opened {
            self.byte(b'-');
            self.spaced(k + 1);
        } else {
            self.spaced(k + 1);
        }
    }

    // Puts such a literal and a space, or nothing.
    pub fn literal_if(&mut self, there: bool, opened: bool, k: usize)
        requires low { self.old.length < 2 ^ 59 }
        requires few { k < 64 }
        ensures put { Put self.old (if there then literal_text (literal_of opened k) else []) self.new }
        ensures most { self.new.length ≤ self.old.length + 4 }
    {
        if there {
            self.literal(opened, k);
        }
    }
}
