// One unit's place: memory for a text, and how long the text is that stands, if one does.
ghost use Rattle.std.specs.Prelude.{◌≡◌, ◌≤◌, length, is_some, Some, None, unwrap_or};
ghost use Rattle.analyser.specs.Places.{text_or_none};

// Stays: a text is written in place, since one moved by value is moved whole, all 4,096 bytes, at each load and unload.
#[derive(Clone, Copy)]
pub struct Place {
    bytes: [u8; 4096],
    len: Option<usize>,
    ghost within: { unwrap_or len 0 ≤ 4096 },
}

impl Place {
    pub(crate) fn free() -> Place
        ensures { text_or_none result.len result.bytes ≡ None }
    {
        Place {
            bytes: [0; 4096],
            len: None,
        }
    }

    pub(crate) fn is_standing(&self) -> bool
        ensures { result ≡ is_some (text_or_none self.now.len self.now.bytes) }
    {
        self.len.is_some()
    }

    pub(crate) fn put(&mut self, text: &[u8])
        requires { length text.now ≤ 4096 }
        ensures { text_or_none self.new.len self.new.bytes ≡ Some text.now }
    {
        let n = text.len();
        self.bytes[0..n].copy_from_slice(text);
        self.len = Some(n);
    }

    pub(crate) fn strike(&mut self)
        ensures { text_or_none self.new.len self.new.bytes ≡ None }
    {
        self.len = None;
    }
}
