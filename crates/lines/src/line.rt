// A line as far as it has come.
ghost use Rattle.std.specs.Prelude.{◌≡◌, false};
ghost use Rattle.text.specs.Put.{before};
ghost use Rattle.lines.specs.Lines.{taken_of};
ghost use Rattle.lines.specs.Line.{held, after_return};

use text::Page;

#[derive(Drop)]
pub struct Line<'a> {
    page: Page<'a>,
    // After a carriage return: a line feed then ends no line of its own.
    returned: bool,
}

impl<'a> Line<'a> {
    // Of the first line nothing has come yet.
    pub fn new(bytes: &'a mut [u8]) -> Line<'a>
        ensures same_slice { result.page.bytes.ghost_name ≡ bytes.entry.ghost_name }
        ensures empty { held result ≡ (bytes.old, 0) }
        ensures returned { after_return result ≡ false }
    {
        Line::after(bytes, 0, false)
    }

    // A line of which so many bytes have come, after a carriage return or not.
    pub fn after(bytes: &'a mut [u8], len: usize, returned: bool) -> Line<'a>
        ensures same_slice { result.page.bytes.ghost_name ≡ bytes.entry.ghost_name }
        ensures come { held result ≡ (bytes.old, len) }
        ensures returned { after_return result ≡ returned }
    {
        Line {
            page: Page::after(bytes, len),
            returned,
        }
    }

    // Whether the byte ends the line; else it belongs to it.
    #[tactic(auto, unfolding(crate::specs::Lines::taken_of, text::specs::Put::puts_of))]
    pub fn take(&mut self, byte: u8) -> bool
        ensures same_slice { self.new.page.bytes.ghost_name ≡ self.old.page.bytes.ghost_name }
        ensures taken { (held self.new, after_return self.new, result)
            ≡ taken_of (held self.old).0 (held self.old).1 (after_return self.old) byte }
    {
        let returned = self.returned;
        self.returned = byte == b'\r';
        match byte {
            b'\r' => true,
            b'\n' => !returned,
            _ => {
                self.page.put(byte);
                false
            }
        }
    }

    pub fn as_bytes(&self) -> &[u8]
        ensures { result.now ≡ before (held self.now) }
    {
        self.page.as_bytes()
    }

    // The next line begins.
    pub fn clear(&mut self)
        ensures same_slice { self.new.page.bytes.ghost_name ≡ self.old.page.bytes.ghost_name }
        ensures empty { held self.new ≡ ((held self.old).0, 0) }
        ensures returned { after_return self.new ≡ after_return self.old }
    {
        self.page.clear();
    }
}
