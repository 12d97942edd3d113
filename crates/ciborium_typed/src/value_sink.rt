//! Values from what is written.
ghost use Rattle.std.specs.Prelude.{◌≡◌, List, [], ◌∷◌, map, Contains, IfOk, OnOk, OnErr};
ghost use Rattle.ciborium_value.specs.View.{view};
ghost use Rattle.ciborium_typed.specs.Stacks.{Stack, Leads, state_of, added, begun, emptied};
ghost use Rattle.ciborium_typed.specs.Stacks.{container_of};

use ciborium_ll::Float;
use ciborium_traits::Sink;
use ciborium_value::{Integer, Value};
use std::alloc::{AllocError, Global};

/// A tag, an array or a map that is not full yet. A number says how many items or entries come
/// after the next one.
#[derive(Drop)]
enum Level {
    /// A tag, whose item comes.
    Tag(u64),
    /// The items so far; the next one comes.
    Array(Vec<Value>, usize),
    /// The entries so far; a key comes.
    Map(Vec<(Value, Value)>, usize),
    /// The entries so far and the key of the next one; its value comes.
    Entry(Vec<(Value, Value)>, Value, usize),
}

/// Builds values of what is written to it. Each event is taken, also after a whole item, unless it
/// is out of memory; what was not whole is dropped then. Memory is taken for what has come, never
/// by a claimed length.
#[derive(Drop)]
pub struct ValueSink {
    alloc: Global,
    levels: Vec<Level>,
    items: Vec<Value>,
}

impl ValueSink {
    /// A sink that has been given nothing.
    pub fn new(alloc: Global) -> ValueSink
        ensures { state_of result ≡ ([], []) }
    {
        ValueSink {
            alloc,
            levels: Vec::new(alloc),
            items: Vec::new(alloc),
        }
    }

    /// The whole items in order. What is not full is dropped.
    pub fn into_items(self) -> Vec<Value>
        ensures { map view result.items ≡ (state_of self).1 }
    {
        self.items
    }

    /// Puts an item into the innermost open container, and each container that is full then into
    /// the one around it, or among the whole items.
    fn fill(&mut self, item: Value) -> Result<(), AllocError>
        ensures ok { OnOk result (state_of self.new ≡ added (view item) (state_of self.old)) }
        ensures err { OnErr result (emptied (state_of self.new) ≡ emptied (state_of self.old)) }
    {
        let mut item = item;
        'levels: while let Some(level) = self.levels.pop() {
            match level {
                Level::Tag(tag) => {
                    item = Value::Tag(tag, Box::new(self.alloc, item)?);
                }
                Level::Array(mut items, more) => {
                    items.push(item)?;
                    if more > 0 {
                        self.levels.push(Level::Array(items, more - 1))?;
                        return Ok(());
                    }
                    item = Value::Array(items);
                }
                Level::Map(entries, more) => {
                    self.levels.push(Level::Entry(entries, item, more))?;
                    return Ok(());
                }
                Level::Entry(mut entries, key, more) => {
                    entries.push((key, item))?;
                    if more > 0 {
                        self.levels.push(Level::Map(entries, more - 1))?;
                        return Ok(());
                    }
                    item = Value::Map(entries);
                }
            }
        }
        self.items.push(item)?;
        Ok(())
    }

    /// Drops what is not whole.
    fn give_up(&mut self) -> AllocError
        ensures { state_of self.new ≡ emptied (state_of self.old) }
    {
        self.levels.clear();
        AllocError
    }

    /// Adds an item.
    fn add(&mut self, item: Value) -> Result<(), AllocError>
        ensures ok { OnOk result (state_of self.new ≡ added (view item) (state_of self.old)) }
        ensures err { OnErr result (state_of self.new ≡ emptied (state_of self.old)) }
    {
        match self.fill(item) {
            Ok(()) => Ok(()),
            Err(_) => Err(self.give_up()),
        }
    }

    /// Begins a tag, an array or a map.
    fn begin(&mut self, level: Level) -> Result<(), AllocError>
        ensures ok { OnOk result (state_of self.new ≡ begun (container_of level)
            (state_of self.old)) }
        ensures err { OnErr result (state_of self.new ≡ emptied (state_of self.old)) }
    {
        match self.levels.push(level) {
            Ok(()) => Ok(()),
            Err(_) => Err(self.give_up()),
        }
    }
}

impl Sink for ValueSink {
    type Error = AllocError;

    ghost Plan = { List Stack × Stack };

    ghost due = { λ p es s. Leads p.0 p.1 es (state_of s) };

    ghost torn = { λ p s. Contains p.0 (state_of s) };

    fn integer(&mut self, number: Integer) -> Result<(), AllocError> {
        self.add(Value::Integer(number))
    }

    fn bytes(&mut self, bytes: &[u8]) -> Result<(), AllocError> {
        match bytes.to_vec(self.alloc) {
            Ok(copy) => self.add(Value::Bytes(copy)),
            Err(_) => Err(self.give_up()),
        }
    }

    fn float(&mut self, float: Float) -> Result<(), AllocError> {
        self.add(Value::Float(float))
    }

    fn text(&mut self, text: &str) -> Result<(), AllocError> {
        match String::from_str(self.alloc, text) {
            Ok(copy) => self.add(Value::Text(copy)),
            Err(_) => Err(self.give_up()),
        }
    }

    fn boolean(&mut self, value: bool) -> Result<(), AllocError> {
        self.add(Value::Bool(value))
    }

    fn null(&mut self) -> Result<(), AllocError> {
        self.add(Value::Null)
    }

    fn tag(&mut self, tag: u64) -> Result<(), AllocError> {
        self.begin(Level::Tag(tag))
    }

    fn array(&mut self, len: usize) -> Result<(), AllocError> {
        if len == 0 {
            return self.add(Value::Array(Vec::new(self.alloc)));
        }
        self.begin(Level::Array(Vec::new(self.alloc), len - 1))
    }

    fn map(&mut self, len: usize) -> Result<(), AllocError> {
        if len == 0 {
            return self.add(Value::Map(Vec::new(self.alloc)));
        }
        self.begin(Level::Map(Vec::new(self.alloc), len - 1))
    }
}
