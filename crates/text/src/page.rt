// A page: bytes that a caller lends, and how many of them are written. Text is put by methods and functions, and not by Display or `write!`: that promises what it
// writes where it answers Ok, and a page, which leaves out what finds no room, promises every byte.
ghost use Rattle.std.specs.Prelude.{◌≡◌, ◌∷◌, [], take};
ghost use Rattle.text.specs.Put.{before};
ghost use Rattle.text.specs.Page.{written, Puts};

// What finds no room is left out.
#[derive(Drop)]
pub struct Page<'a> {
    bytes: &'a mut [u8],
    len: usize,
}

impl<'a> Page<'a> {
    // A page on which nothing is written.
    pub fn new(bytes: &'a mut [u8]) -> Page<'a>
        ensures same_slice { result.bytes.ghost_name ≡ bytes.entry.ghost_name }
        ensures empty { written result ≡ (bytes.old, 0) }
    {
        Page { bytes, len: 0 }
    }

    // A page whose first bytes are written.
    pub fn after(bytes: &'a mut [u8], len: usize) -> Page<'a>
        ensures same_slice { result.bytes.ghost_name ≡ bytes.entry.ghost_name }
        ensures first { written result ≡ (bytes.old, len) }
    {
        Page { bytes, len }
    }

    pub fn len(&self) -> usize
        ensures { result ≡ self.now.len }
    {
        self.len
    }

    pub fn as_bytes(&self) -> &[u8]
        ensures { result.now ≡ before (written self.now) }
    {
        first(self.bytes, self.len)
    }

    #[tactic(auto, unfolding(crate::specs::Put::puts_of, crate::specs::Put::put_of))]
    pub fn put(&mut self, byte: u8)
        ensures { Puts self.old self.new (byte ∷ []) }
    {
        if self.len < self.bytes.len() {
            self.bytes[self.len] = byte;
            self.len += 1;
        }
    }

    #[tactic(auto, using(crate::proofs::Puts::puts_take), unfolding(crate::specs::Put::puts_of))]
    // This, `put_each` and `put_shown` of wording are loops of a line or two: one over a closure would need its contract to say what is put for a byte.
    pub fn put_all(&mut self, bytes: &[u8])
        ensures { Puts self.old self.new bytes.now }
    {
        for byte in bytes {
            self.put(*byte);
        }
    }

    // Nothing is written any more.
    pub fn clear(&mut self)
        ensures same_slice { self.new.bytes.ghost_name ≡ self.old.bytes.ghost_name }
        ensures empty { written self.new ≡ ((written self.old).0, 0) }
    {
        self.len = 0;
    }
}

// What was put before a place.
pub fn first(out: &[u8], at: usize) -> &[u8]
    ensures { result.now ≡ take at out.now }
{
    &out[..at.min(out.len())]
}
