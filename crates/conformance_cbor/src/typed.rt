//! Items read as types of Rust, and written.
use crate::items;
use ciborium::de::{Deserialize, Error, from_reader_with_recursion_limit};
use ciborium::ser::Serialize;
use ciborium::tag::{Accepted, Captured, Required};
use ciborium::value::{self, CanonicalValue, ValueTyped};
use ciborium::{End, Mem, Value, from_reader, from_reader_with_buffer, into_writer};
use ciborium_typed::ByteBuf;
use coset_labels::write_to_vec;
use std::collections::BTreeMap;
use std::fmt::Debug;
use test_tools::{NoAnswer, Out};

/// How an item is read as a type.
#[derive(Clone, Copy)]
pub enum Route {
    /// From the front of bytes, by `from_reader`.
    Reader,
    /// The same, of which only what is left of the bytes is told.
    Rest,
    /// From the front of bytes that may have so many levels.
    Within(usize),
    /// From the front of bytes, by a buffer of so many bytes, 8 at most.
    Buffer(usize),
    /// From a value, by `Deserialize::take`.
    Take,
    /// From a value, by `Value::deserialized`.
    Deserialized,
}

/// What is read as the type with this name.
pub fn typed(to: &mut Out, route: Route, name: &str, bytes: &[u8]) {
    match name {
        "bool" => read::<bool>(to, route, bytes),
        "u8" => read::<u8>(to, route, bytes),
        "u16" => read::<u16>(to, route, bytes),
        "u32" => read::<u32>(to, route, bytes),
        "u64" => read::<u64>(to, route, bytes),
        "u128" => read::<u128>(to, route, bytes),
        "usize" => read::<usize>(to, route, bytes),
        "i8" => read::<i8>(to, route, bytes),
        "i16" => read::<i16>(to, route, bytes),
        "i32" => read::<i32>(to, route, bytes),
        "i64" => read::<i64>(to, route, bytes),
        "i128" => read::<i128>(to, route, bytes),
        "isize" => read::<isize>(to, route, bytes),
        "char" => read::<char>(to, route, bytes),
        "()" => read::<()>(to, route, bytes),
        "String" => read::<String>(to, route, bytes),
        "ByteBuf" => read::<ByteBuf>(to, route, bytes),
        "Value" => read::<Value>(to, route, bytes),
        "CanonicalValue" => read::<CanonicalValue>(to, route, bytes),
        _ => composite(to, route, name, bytes),
    }
}

fn composite(to: &mut Out, route: Route, name: &str, bytes: &[u8]) {
    match name {
        "Option<bool>" => read::<Option<bool>>(to, route, bytes),
        "Vec<u8>" => read::<Vec<u8>>(to, route, bytes),
        "Vec<bool>" => read::<Vec<bool>>(to, route, bytes),
        "Vec<(bool,)>" => read::<Vec<(bool,)>>(to, route, bytes),
        "(bool,)" => read::<(bool,)>(to, route, bytes),
        "(bool,bool)" => read::<(bool, bool)>(to, route, bytes),
        "(u8,u8)" => read::<(u8, u8)>(to, route, bytes),
        "(bool,bool,bool)" => read::<(bool, bool, bool)>(to, route, bytes),
        "(bool,bool,bool,bool)" => read::<(bool, bool, bool, bool)>(to, route, bytes),
        "BTreeMap<bool,bool>" => read::<BTreeMap<bool, bool>>(to, route, bytes),
        "BTreeMap<u8,u8>" => read::<BTreeMap<u8, u8>>(to, route, bytes),
        "Captured<bool>" => read::<Captured<bool>>(to, route, bytes),
        "Required<bool,5>" => read::<Required<bool, 5>>(to, route, bytes),
        "Accepted<bool,5>" => read::<Accepted<bool, 5>>(to, route, bytes),
        "Accepted<u8,5>" => read::<Accepted<u8, 5>>(to, route, bytes),
        _ => to.refuse(NoAnswer::NoCall),
    }
}

fn read<T: Deserialize + Serialize + Debug>(to: &mut Out, route: Route, bytes: &[u8]) {
    match route {
        Route::Reader => by_reader::<T>(to, bytes),
        Route::Rest => rest::<T>(to, bytes),
        Route::Within(limit) => within::<T>(to, limit, bytes),
        Route::Buffer(size) => by_buffer::<T>(to, size, bytes),
        Route::Take => {
            let value = items::whole(to, bytes);
            serialized(to, T::take(to.alloc(), value));
        }
        Route::Deserialized => {
            let value = items::whole(to, bytes);
            serialized(to, value.deserialized::<T>(to.alloc()));
        }
    }
}

fn by_reader<T: Deserialize + Serialize + Debug>(to: &mut Out, bytes: &[u8]) {
    let mut rest = bytes;
    let read: Result<T, Error<End>> = from_reader(to.alloc(), &mut rest);
    told(to, read);
}

fn within<T: Deserialize + Serialize + Debug>(to: &mut Out, limit: usize, bytes: &[u8]) {
    let mut rest = bytes;
    let read: Result<T, Error<End>> = from_reader_with_recursion_limit(
        to.alloc(),
        &mut rest,
        limit,
    );
    told(to, read);
}

fn by_buffer<T: Deserialize + Serialize + Debug>(to: &mut Out, size: usize, bytes: &[u8]) {
    let mut rest = bytes;
    let mut buffer = [7; 8];
    let buffer = &mut buffer[..size.min(8)];
    let read: Result<T, Error<End>> = from_reader_with_buffer(to.alloc(), &mut rest, buffer);
    told(to, read);
}

fn told<T: Serialize + Debug + Drop>(to: &mut Out, read: Result<T, Error<End>>) {
    if let Some(value) = to.value(read) {
        written(to, &value);
    }
}

fn written<T: Serialize + Debug>(to: &mut Out, value: &T) {
    let mut out = Mem::new(Vec::new(to.alloc()));
    if into_writer(value, &mut out).is_err() {
        to.refuse(NoAnswer::Memory);
    }
    to.debug(value);
    to.text(" written ");
    to.hex(out.as_written());
}

fn rest<T: Deserialize>(to: &mut Out, bytes: &[u8]) {
    let mut rest = bytes;
    let _read: Result<T, Error<End>> = from_reader(to.alloc(), &mut rest);
    to.hex(rest);
}

fn serialized<T: Deserialize + Serialize + Debug>(to: &mut Out, read: Result<T, value::Error>) {
    match read {
        Ok(value) => written_as_value(to, &value),
        Err(error) => to.failure(&error),
    }
}

fn written_as_value<T: Serialize + Debug>(to: &mut Out, value: &T) {
    match Value::serialized(to.alloc(), value) {
        Ok(item) => {
            to.debug(value);
            to.text(" written ");
            to.made(write_to_vec(to.alloc(), &item));
        }
        Err(_) => to.refuse(NoAnswer::Memory),
    }
}
