// The output of an opening, until its tag has matched.
ghost use Rattle.std.specs.Prelude.{◌≡◌, length, replicate};

// Holds the output while it is written. Its end zeroes the bytes, unless they are kept first.
pub(crate) struct Guard<'a> {
    pub(crate) out: &'a mut [u8],
}

impl Guard<'_> {
    pub(crate) fn keep(self)
        ensures { self.exit.0.now ≡ self.entry.out.now }
    {
        let Guard { out: _ } = self;
    }
}

impl Drop for Guard<'_> {
    fn drop(self)
        ensures { self.exit.0.now ≡ replicate (length self.entry.out.now) 0 }
    {
        let Guard { out } = self;
        out.fill(0);
    }
}
