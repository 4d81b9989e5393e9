//! The two sides of an operation in 128 bits.
ghost use Rattle.std.specs.Prelude.{length, pos, replicate, slice_index_or, List, ℤ, ◌<◌, ◌≡◌};

/// Numbers of 128 bits, one for each place.
pub(crate) trait WideSide {
    ghost numbers: { Self → List ℤ };

    fn at(&self, i: usize) -> i128
        requires { i < length (numbers self.now) }
        ensures { result ≡ slice_index_or (numbers self.now) i (pos 0) };
}

/// Numbers of 64 bits, which are read in 128.
#[derive(Drop)]
pub(crate) struct ShortColumn<'b> {
    pub(crate) values: &'b [i64],
}

impl WideSide for ShortColumn<'_> {
    ghost numbers = { λ c. c.values.now };

    fn at(&self, i: usize) -> i128 {
        i128::from(self.values[i])
    }
}

#[derive(Drop)]
pub(crate) struct WideColumn<'b> {
    pub(crate) values: &'b [i128],
}

impl WideSide for WideColumn<'_> {
    ghost numbers = { λ c. c.values.now };

    fn at(&self, i: usize) -> i128 {
        self.values[i]
    }
}

/// One number in each place. No copy of it is made.
#[derive(Drop)]
pub(crate) struct WideRepeated {
    pub(crate) number: i128,
    pub(crate) len: usize,
}

impl WideSide for WideRepeated {
    ghost numbers = { λ r. replicate r.len r.number };

    fn at(&self, _: usize) -> i128 {
        self.number
    }
}
