// Numbers as text, into a buffer that the caller lends: each method puts its text behind what has been written, and leaves all other bytes
// as they are.
//
// These are inner forms: each asks for room for the longest text that it can put.
#![tactic(auto)]

ghost use Rattle.std.specs.Prelude.{[], ◌∷◌};
ghost use Rattle.rules.specs.Text.{number_text, signed_text, column};
ghost use Rattle.text.specs.Room.{number_room, column_room};

use itoa::Buffer;

// A lent buffer, and the place behind what has been written.
#[derive(Drop)]
pub struct Text<'a> {
    pub buffer: &'a mut [u8],
    pub at: usize,
}

impl<'a> Text<'a> {
    ghost use Rattle.text.specs.Writes.{HasRoom, Writes};

    pub fn byte(&mut self, byte: u8)
        requires { HasRoom self.old 1 }
        ensures { Writes self.old (byte ∷ []) 1 self.new }
    {
        self.buffer[self.at] = byte;
        self.at += 1;
    }

    // A number in decimal.
    pub fn number(&mut self, n: u64)
        requires { HasRoom self.old number_room }
        ensures { Writes self.old (number_text n) number_room self.new }
    {
        let mut digits = Buffer::new();
        for byte in digits.format(n).as_bytes() {
            self.byte(*byte);
        }
    }

    // A number behind a blank.
    pub fn column(&mut self, n: u64)
        requires { HasRoom self.old column_room }
        ensures { Writes self.old (column n) column_room self.new }
    {
        self.byte(b' ');
        self.number(n);
    }

    // A signed number in decimal: its sign, the byte that must-fail/margin_sign is about, and its size.
    pub fn signed(&mut self, z: i64)
        requires { HasRoom self.old column_room }
        ensures { Writes self.old (signed_text z) column_room self.new }
    {
        if z < 0 {
            self.byte(b'-');
        }
        self.number(z.unsigned_abs());
    }
}
