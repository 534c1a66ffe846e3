// A guard over a table of queue sizes: one of them is a slot deeper while the guard lives, and goes back when it ends, whichever way
// out of a trial ends it.
ghost use Rattle.std.specs.Prelude.{◌≡◌, ◌+◌, ◌<◌, length, slice_index, slice_set};

pub(crate) struct Deepened<'a> {
    pub(crate) sizes: &'a mut [u8],
    at: usize,
    old: u8,
}

impl<'a> Deepened<'a> {
    // Deepens the table by a slot at one place.
    pub(crate) fn new(sizes: &'a mut [u8], at: usize) -> Deepened<'a>
        requires within { at < length sizes.old }
        requires fits { slice_index sizes.old at < 255 }
        ensures same_table { result.sizes.ghost_name ≡ sizes.entry.ghost_name }
        ensures at { result.at ≡ at }
        ensures old { result.old ≡ slice_index sizes.old at }
        ensures after { result.sizes.now ≡ slice_set sizes.old at (slice_index sizes.old at + 1) }
    {
        let old = sizes[at];
        sizes[at] = old + 1;
        Deepened { sizes, at, old }
    }
}

impl Drop for Deepened<'_> {
    fn drop(self)
        requires { self.at < length self.sizes.now }
        ensures { self.exit.0.now ≡ slice_set self.entry.sizes.now self.entry.at self.entry.old }
    {
        let Deepened { sizes, at, old } = self;
        sizes[at] = old;
    }
}
