// Text that is put into a lent buffer: words, numbers in decimal, and coordinates joined by commas. Everything else in the buffer is kept.
// Where there might be no room nothing is put.
#![tactic(auto)]

ghost use Rattle.std.specs.Prelude.{◌++◌, ◌≡◌, ◌+◌, ◌-◌, ◌≤◌, ◌<◌, length, take};
ghost use Rattle.decimal.specs.Put.{Put, PutIfRoom};
ghost use Rattle.decimal.specs.Text.{byte, decimal, joined};
ghost use Rattle.decimal.specs.Text.{signed as Text·signed};

// A lent buffer, and the place behind the text that was put into it.
#[derive(Debug, Drop)]
pub struct Writer<'a> {
    pub buffer: &'a mut [u8],
    pub at: usize,
}

impl Writer<'_> {
    // How many bytes there are from the place on.
    fn room(&self) -> usize
        ensures { result ≡ length self.now.buffer.now - self.now.at }
    {
        self.buffer.len().saturating_sub(self.at)
    }

    fn put_byte(&mut self, b: u8)
        requires { self.old.at < length self.old.buffer.now }
        ensures same_buffer { self.new.buffer.ghost_name ≡ self.old.buffer.ghost_name }
        ensures put { Put self.old.buffer.now self.old.at (byte b) self.new.at self.new.buffer.now }
    {
        self.buffer[self.at] = b;
        self.at += 1;
    }

    #[tactic(auto, using(crate::proofs::Putting::put_nothing, crate::proofs::Putting::put_part, crate::proofs::Putting::not_put, crate::proofs::Putting::is_put))]
    pub fn put_bytes(&mut self, word: &[u8])
        ensures same_buffer { self.new.buffer.ghost_name ≡ self.old.buffer.ghost_name }
        ensures put { PutIfRoom (length word.now) self.old.buffer.now self.old.at word.now self.new.at self.new.buffer.now }
    {
        if word.is_empty() || self.room() < word.len() {
            return;
        }
        let end = self.at + word.len();
        self.buffer[self.at..end].copy_from_slice(word);
        self.at = end;
    }

    // The digits of n: those of n / 10 first, so that none is written twice or counted before.
    #[tactic(auto, using(crate::proofs::Decimal::decimal_one, crate::proofs::Decimal::decimal_more, crate::proofs::Putting::put_more))]
    fn put_decimal(&mut self, n: u64)
        requires { self.old.at + length (decimal n) ≤ length self.old.buffer.now }
        ensures same_buffer { self.new.buffer.ghost_name ≡ self.old.buffer.ghost_name }
        ensures put { Put self.old.buffer.now self.old.at (decimal n) self.new.at self.new.buffer.now }
    {
        if n < 10 {
            self.put_byte(b'0' + n as u8);
        } else {
            self.put_decimal(n / 10);
            self.put_byte(b'0' + (n % 10) as u8);
        }
    }

    // A number behind its name. A number has 20 digits at most.
    pub fn put_field(&mut self, name: &[u8], n: u64)
        ensures same_buffer { self.new.buffer.ghost_name ≡ self.old.buffer.ghost_name }
        ensures put { PutIfRoom (length name.now + 20) self.old.buffer.now self.old.at (name.now ++ decimal n) self.new.at self.new.buffer.now }
        ensures short { self.new.at ≤ self.old.at + (length name.now + 20) }
    {
        if self.room() < name.len() + 20 {
            return;
        }
        self.put_bytes(name);
        self.put_decimal(n);
    }

    // A coordinate, with its sign if it is negative: 6 bytes at most.
    fn put_signed(&mut self, w: i16)
        requires { self.old.at + 6 ≤ length self.old.buffer.now }
        ensures same_buffer { self.new.buffer.ghost_name ≡ self.old.buffer.ghost_name }
        ensures put { Put self.old.buffer.now self.old.at (Text·signed w) self.new.at self.new.buffer.now }
        ensures short { self.new.at ≤ self.old.at + 6 }
    {
        if w < 0 {
            self.put_byte(b'-');
        }
        self.put_decimal(u64::from(w.unsigned_abs()));
    }

    // The first coordinates of a vector, joined by commas: 56 bytes at most.
    pub fn put_joined(&mut self, v: [i16; 8], used: usize)
        ensures same_buffer { self.new.buffer.ghost_name ≡ self.old.buffer.ghost_name }
        ensures put { PutIfRoom 56 self.old.buffer.now self.old.at (joined (take used v)) self.new.at self.new.buffer.now }
        ensures short { self.new.at ≤ self.old.at + 56 }
    {
        if self.room() < 56 {
            return;
        }
        for (k, w) in v[..used.min(8)].iter().enumerate() {
            if 0 < k {
                self.put_byte(b',');
            }
            self.put_signed(*w);
        }
    }
}
