// The trait of everything that is a kind of length.
ghost use Rattle.std.specs.Prelude.{◌≡◌};
ghost use Rattle.length.specs.Model.{Model, Lawful};

use network::Arc;

// A kind of length is a value. It answers by its model, from the values given alone, and the model keeps the laws.
pub trait Kind {
    type Length: Copy;

    ghost model: { Self → Model Self.Length };

    // The length of one arc.
    fn arc_length(&self, arc: Arc) -> Self::Length
        ensures { result ≡ (model self.now).arc arc };

    // The length of no arcs.
    fn empty_length(&self) -> Self::Length
        ensures { result ≡ (model self.now).empty };

    // The length of one way and then another.
    fn join(&self, a: Self::Length, b: Self::Length) -> Self::Length
        ensures { result ≡ (model self.now).join a b };

    // Whether `a` is no longer than `b`.
    fn no_longer(&self, a: Self::Length, b: Self::Length) -> bool
        ensures { result ≡ (model self.now).no_longer a b };

    ghost lawful: { (kind : Self) → Lawful (model kind) };
}
