// How many lines a list may hold: a number of its type, or one that is given when it is made.
ghost use Rattle.std.specs.Prelude.{◌≡◌, ℕ};

pub trait Limit {
    ghost most: { Self → ℕ };

    fn most(&self) -> usize
        ensures { result ≡ most self.now };
}

// A limit that is known only at run time.
impl Limit for usize {
    ghost most = { λ n. n };

    fn most(&self) -> usize {
        *self
    }
}

// A limit that the type says.
#[derive(Clone, Copy, PartialEq, Eq, Debug)]
pub struct AtMost<const MOST: usize>;

impl<const MOST: usize> Limit for AtMost<MOST> {
    ghost most = { λ _. MOST };

    fn most(&self) -> usize {
        MOST
    }
}
