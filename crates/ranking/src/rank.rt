// What orders the lines of a list.
ghost use Rattle.std.specs.Prelude.{◌≡◌, Bool, true, false};

// A strict weak order on lines, as a value: a side of the market orders resting orders and quotations alike.
pub trait Rank<T> {
    // Whether the first line is to stand before the second.
    ghost before: { Self → T → T → Bool };

    fn stands_before(&self, x: &T, y: &T) -> bool
        ensures { result ≡ before self.now x.now y.now };

    // No line stands before itself.
    ghost irreflexive: { (s : Self) (x : T) → before s x x ≡ false };

    // Standing before is transitive.
    ghost transitive: { (s : Self) (x y z : T) → before s x y ≡ true → before s y z ≡ true → before s x z ≡ true };

    // Standing level, neither before the other, is transitive.
    ghost level: { (s : Self) (x y z : T) → before s x y ≡ false → before s y x ≡ false → before s y z ≡ false → before s z y ≡ false → before s x z ≡ false };
}
