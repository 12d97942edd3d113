//! What values are written to, and what can be written.
ghost use Rattle.std.specs.Prelude.{ℕ, List, [], ◌∷◌, OnOk, OnErr};
ghost use Rattle.ciborium_value.specs.Tree.{Tree};
ghost use Rattle.ciborium_value.specs.View.{number_of};
ghost use Rattle.ciborium_traits.specs.Events.{Event, events, boolean_event, Puts, Stops};
ghost use Rattle.ciborium_traits.specs.Events as event;

use ciborium_ll::Float;
use ciborium_value::Integer;

/// Takes items piece by piece: each call adds one event, a leaf or the beginning of a tag, an array
/// or a map, whose parts follow it.
///
/// An implementation says in its meaning what it has to become (`Plan`), which events it still has
/// to take for that (`due`), and how it is left when it refused one of them (`torn`).
pub trait Sink {
    /// Why an event was not taken.
    type Error;

    /// What a sink has to become: its state after all events.
    ghost Plan: { Type 0 };

    /// Once it has taken these events, it is what was planned.
    ghost due: { Plan → List Event → Self → Type 0 };

    /// How it is left if it refused an event before it was what was planned.
    ghost torn: { Plan → Self → Type 0 };

    /// Adds an integer.
    fn integer(&mut self, number: Integer) -> Result<(), Self::Error>
        ensures ok { OnOk result
            (Puts due self.old (event.integer (number_of number) ∷ []) self.new) }
        ensures err { OnErr result
            (Stops due torn self.old (event.integer (number_of number) ∷ []) self.new) };

    /// Adds a byte string.
    fn bytes(&mut self, bytes: &[u8]) -> Result<(), Self::Error>
        ensures ok { OnOk result (Puts due self.old (event.bytes bytes.now ∷ []) self.new) }
        ensures err { OnErr result
            (Stops due torn self.old (event.bytes bytes.now ∷ []) self.new) };

    /// Adds a float by its width and bits.
    fn float(&mut self, float: Float) -> Result<(), Self::Error>
        ensures ok { OnOk result (Puts due self.old (event.float float ∷ []) self.new) }
        ensures err { OnErr result (Stops due torn self.old (event.float float ∷ []) self.new) };

    /// Adds a text string.
    fn text(&mut self, text: &str) -> Result<(), Self::Error>
        ensures ok { OnOk result (Puts due self.old (event.text text.now ∷ []) self.new) }
        ensures err { OnErr result (Stops due torn self.old (event.text text.now ∷ []) self.new) };

    /// Adds false or true.
    fn boolean(&mut self, value: bool) -> Result<(), Self::Error>
        ensures ok { OnOk result (Puts due self.old (boolean_event value ∷ []) self.new) }
        ensures err { OnErr result (Stops due torn self.old (boolean_event value ∷ []) self.new) };

    /// Adds null.
    fn null(&mut self) -> Result<(), Self::Error>
        ensures ok { OnOk result (Puts due self.old (event.simple 22 ∷ []) self.new) }
        ensures err { OnErr result (Stops due torn self.old (event.simple 22 ∷ []) self.new) };

    /// Begins a tag; one item follows.
    fn tag(&mut self, tag: u64) -> Result<(), Self::Error>
        ensures ok { OnOk result (Puts due self.old (event.tag tag ∷ []) self.new) }
        ensures err { OnErr result (Stops due torn self.old (event.tag tag ∷ []) self.new) };

    /// Begins an array; so many items follow.
    fn array(&mut self, len: usize) -> Result<(), Self::Error>
        ensures ok { OnOk result (Puts due self.old (event.array len ∷ []) self.new) }
        ensures err { OnErr result (Stops due torn self.old (event.array len ∷ []) self.new) };

    /// Begins a map; so many entries follow, of each the key and then the value.
    fn map(&mut self, len: usize) -> Result<(), Self::Error>
        ensures ok { OnOk result (Puts due self.old (event.map len ∷ []) self.new) }
        ensures err { OnErr result (Stops due torn self.old (event.map len ∷ []) self.new) };
}

/// A type whose values can be written.
pub trait Serialize {
    /// The item that a value is written as.
    ghost put: { Self → Tree };

    /// Writes this value.
    ///
    /// # Errors
    /// The sink's; it took a beginning of the value's events then, and refused the next.
    fn serialize<S: Sink>(&self, sink: &mut S) -> Result<(), S::Error>
        ensures ok { OnOk result (Puts S.due sink.old (events (put self.now)) sink.new) }
        ensures err { OnErr result (Stops S.due S.torn sink.old
            (events (put self.now)) sink.new) };
}
