//! Items of a decoder, one after another.
ghost use Rattle.std.specs.Prelude.{◌≡◌, Some, [], IfOk, IfErr, OnOk};
ghost use Rattle.ciborium_ll.specs.Seen.{Takes};
ghost use Rattle.ciborium_ll.specs.Views.{left_of, reader_of, seen};
ghost use Rattle.ciborium_value.specs.View.{view};
ghost use Rattle.ciborium.specs.Front.{Reads, HoldsOne};
ghost use Rattle.ciborium.specs.Damage.{Damage};
ghost use Rattle.ciborium.specs.Reading.{NamesFault, Steady, TakesSome, IsNoMemory, IfEnd};
ghost use Rattle.ciborium.specs.Reading.{IfMemory, fault_failures};
ghost use Rattle.ciborium.specs.Typed.{refusing};

use crate::de::{Error, from_decoder};
use crate::value::{self, Value};
use ciborium_ll::{Decoder, Read};
use ciborium_typed::Source;
use std::alloc::Global;

/// Gives the items that a decoder reads, each of at most so many levels.
#[derive(Drop)]
pub struct Deserializer<R> {
    alloc: Global,
    decoder: Decoder<R>,
    recursion_limit: usize,
}

impl<R: Read> Deserializer<R> {
    ghost use Rattle.ciborium.specs.Streams.{decoder_of, limit_of};

    /// The items of the bytes that the decoder has to come. Dropping, copying and comparing a value
    /// recurse over its levels: the stack has to bear the limit.
    pub fn new(alloc: Global, decoder: Decoder<R>, recursion_limit: usize) -> Deserializer<R>
        ensures decoder { decoder_of result ≡ decoder }
        ensures limit { limit_of result ≡ recursion_limit }
    {
        Deserializer {
            alloc,
            decoder,
            recursion_limit,
        }
    }

    /// The decoder, to go on with.
    pub fn into_decoder(self) -> Decoder<R>
        ensures { result ≡ decoder_of self }
    {
        self.decoder
    }
}

impl<R: Read> Source for Deserializer<R> {
    type Error = Error<R::Error>;

    ghost use Rattle.ciborium.specs.Streams.{decoder_of, limit_of};

    ghost gives = { λ s item t. Takes (seen R.Read (decoder_of s)) (seen R.Read (decoder_of t))
        (λ b. Reads b (limit_of s) item) × (limit_of t ≡ limit_of s)
        × (R.failed (reader_of (decoder_of t)) ≡ R.failed (reader_of (decoder_of s)))
        × (R.handle (reader_of (decoder_of t)) ≡ R.handle (reader_of (decoder_of s))) };

    ghost fails = { λ s e t. NamesFault R.ends (λ stop b f. Damage stop b (limit_of s) f)
        (seen R.Read (decoder_of s)) (seen R.Read (decoder_of t)) e
        × (limit_of t ≡ limit_of s)
        × (R.failed (reader_of (decoder_of t))
        ≡ fault_failures R.ends e (R.failed (reader_of (decoder_of s))))
        × (R.handle (reader_of (decoder_of t)) ≡ R.handle (reader_of (decoder_of s))) };

    ghost refused = { refusing };

    /// The next item.
    ///
    /// # Errors
    /// Those of `from_decoder`. After one but an end with nothing left the decoder may be inside an
    /// item: don't read on.
    fn item(&mut self) -> Result<Value, Error<R::Error>>
        ensures ok { IfOk result (λ v.
            Takes (seen R.Read (decoder_of self.old)) (seen R.Read (decoder_of self.new))
            (λ b. Reads b (limit_of self.old) (view v))) }
        ensures err { IfErr result
            (NamesFault R.ends (λ stop b f. Damage stop b (limit_of self.old) f)
            (seen R.Read (decoder_of self.old)) (seen R.Read (decoder_of self.new))) }
        ensures nothing { left_of R.left (decoder_of self.old) ≡ Some []
            → IfErr result IsNoMemory }
        ensures some { left_of R.left (decoder_of self.old) ≡ Some [] → OnOk result ⊥ }
        ensures ended { left_of R.left (decoder_of self.old) ≡ Some []
            → IfErr result (IfEnd R.ends (left_of R.left (decoder_of self.new) ≡ Some [])) }
        ensures stops { IfErr result (TakesSome (seen R.Read (decoder_of self.old))
            (seen R.Read (decoder_of self.new))) }
        ensures one { IfErr result (IfMemory (Takes (seen R.Read (decoder_of self.old))
            (seen R.Read (decoder_of self.new)) HoldsOne)) }
        ensures steady { Steady R.ends result (seen R.Read (decoder_of self.old))
            (seen R.Read (decoder_of self.new)) }
        ensures limit { limit_of self.new ≡ limit_of self.old }
    {
        from_decoder(self.alloc, &mut self.decoder, self.recursion_limit)
    }

    fn refuse(error: value::Error) -> Error<R::Error> {
        match error {
            value::Error::Kind(kind) => Error::Semantic(None, kind),
            value::Error::Memory => Error::Memory,
        }
    }
}
