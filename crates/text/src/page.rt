// A page of lent bytes, with what is written so far at its front: each call puts a text behind it.
// The caller has the room, from the lengths of its texts.
ghost use Rattle.std.specs.Prelude.{◌≡◌, [], ◌∷◌, ◌+◌, ◌≤◌, length};
ghost use Rattle.text.specs.Texts.{decimal, signed_text, beat_text};
ghost use Rattle.text.specs.Pages.{Appends, Room};

use beats::Beat;

#[derive(Drop)]
pub struct Page<'a> {
    out: &'a mut [u8],
    // how many bytes are written
    pub place: usize,
}

impl<'a> Page<'a> {
    // A page with nothing written.
    pub fn new(out: &'a mut [u8]) -> Page<'a>
        ensures same_reference { result.out.ghost_name ≡ out.entry.ghost_name }
        ensures empty { (result.out.now ≡ out.old) × (result.place ≡ 0) }
    {
        Page { out, place: 0 }
    }

    pub fn byte(&mut self, b: u8)
        requires { Room (b ∷ []) self.old }
        ensures { Appends (b ∷ []) self.old self.new }
    {
        self.out[self.place] = b;
        self.place += 1;
    }

    pub fn bytes(&mut self, text: &[u8])
        requires { Room text.now self.old }
        ensures { Appends text.now self.old self.new }
    {
        let end = self.place + text.len();
        self.out[self.place..end].copy_from_slice(text);
        self.place = end;
    }

    // n in decimal digits.
    pub fn decimal(&mut self, n: u64)
        requires { Room (decimal n) self.old }
        ensures { Appends (decimal n) self.old self.new }
    {
        if n >= 10 {
            self.decimal(n / 10);
        }
        self.byte((48 + n % 10) as u8)
    }

    // A minus in front of a number below 0.
    pub fn signed(&mut self, x: i64)
        requires { Room (signed_text x) self.old }
        ensures { Appends (signed_text x) self.old self.new }
    {
        if x < 0 {
            self.byte(b'-');
        }
        self.decimal(x.unsigned_abs())
    }

    // n, or n/d.
    pub fn beat(&mut self, b: Beat)
        requires { Room (beat_text b) self.old }
        ensures { Appends (beat_text b) self.old self.new }
    {
        self.signed(b.num);
        if b.den != 1 {
            self.byte(b'/');
            self.decimal(b.den as u64);
        }
    }
}
