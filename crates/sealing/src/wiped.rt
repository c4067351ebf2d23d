// A guard over lent key bytes: when it ends they are zero, on every way out.
ghost use Rattle.std.specs.Prelude.{◌≡◌, length, replicate};

pub struct Wiped<'a> {
    pub keys: &'a mut [u8],
}

impl Drop for Wiped<'_> {
    fn drop(self)
        ensures { self.exit.0.now ≡ replicate (length self.entry.keys.now) 0 }
    {
        self.keys.fill(0);
        let Wiped { keys: _ } = self;
    }
}
