//! What the tests share: how bytes are compared, closures, and calls whose closure is watched.
use ciborium_value::Value;
use coset_base::HeaderBuilder;
use coset_headers::Header;
use coset_labels::{CoseError, Fault, TaggedCborSerializable, iana};
use std::alloc::Global;
use std::fmt::Debug;
use std::process::Abort;

/// The bytes of which this is the hex.
pub fn of_hex(rt: &impl Abort, alloc: Global, text: &str) -> Vec<u8> {
    hex::decode(alloc, text).expect(rt, "hex")
}

/// What was made are these bytes in hex.
pub fn gives<E: Debug + Drop>(
    rt: &impl Abort,
    alloc: Global,
    made: Result<Vec<u8>, E>,
    want: &str,
) {
    let made = made.expect(rt, want);
    let got = hex::encode(alloc, made.as_slice()).expect(rt, "memory");
    assert_eq!(rt; got.as_str(), want);
}

/// Memory was enough for each call, or the result is that it was refused.
pub fn may_be_refused(rt: &impl Abort, answers: &[Result<bool, CoseError>]) {
    for answer in answers {
        assert!(rt;
            matches!(answer, Ok(true) | Err(CoseError::Memory)),
            "{answers:?}"
        );
    }
}

/// What a call meets that asks a closure of the tests.
pub type Met = Fault<CoseError>;

/// What was met by a call whose closures fail only if out of memory, or if a part or a signature
/// isn't the wanted one.
pub fn flat(answer: Result<bool, Met>) -> Result<bool, CoseError> {
    match answer {
        Ok(is_so) => Ok(is_so),
        Err(Fault::Caller(error)) => Err(error),
        Err(Fault::Cose(error)) => Err(error),
    }
}

/// 300 bytes: a plaintext or a payload, so that a closure which gives what it is handed gives more,
/// or what a closure gives. In a message h'59012c' is in front of them.
pub const LONG: &[u8] = &[7; 300];

/// Whether these bytes are `LONG` between those.
pub fn is_long_between(
    alloc: Global,
    bytes: &[u8],
    front: &[u8],
    back: &[u8],
) -> Result<bool, CoseError> {
    let mut all = front.to_vec(alloc)?;
    all.extend_from_slice(LONG)?;
    all.extend_from_slice(back)?;
    Ok(all.as_slice() == bytes)
}

/// Whether a message is written in its tag as `LONG` between those.
pub fn is_tagged_long<T: TaggedCborSerializable>(
    alloc: Global,
    message: T,
    front: &[u8],
    back: &[u8],
) -> Result<bool, CoseError> {
    let bytes = message.to_tagged_vec(alloc)?;
    is_long_between(alloc, &bytes, front, back)
}

/// A header with this algorithm.
pub fn with_algorithm(alloc: Global, algorithm: iana::Algorithm) -> Header {
    HeaderBuilder::new(alloc).algorithm(algorithm).build()
}

/// A header that can't be written.
pub fn repeated(rt: &impl Abort, alloc: Global) -> Header {
    let builder = HeaderBuilder::new(alloc)
        .value(100, Value::Null)
        .expect(rt, "no memory");
    builder
        .value(100, Value::Null)
        .expect(rt, "no memory")
        .build()
}

/// The error of a part that is missing.
pub const MISSING: CoseError = CoseError::UnexpectedItem("nothing", "a part");

/// The error of a closure that fails, or that wants another signature or structure.
pub const MISMATCH: CoseError = CoseError::UnexpectedItem("a signature", "another one");

/// The error of a call that asked and then met a fault of its own, or returned the result of a
/// closure that it hadn't asked for what is due.
const UNTRUE: CoseError = CoseError::UnexpectedItem("a call", "another one");

/// What a call returns, after a check that its closure was asked exactly when the call met no
/// fault of its own, such as being out of memory.
pub fn watch<T: Drop>(is_asked: bool, answer: Result<T, Met>) -> Result<T, Met> {
    if is_asked == matches!(answer, Err(Fault::Cose(_))) {
        return Err(Fault::Caller(UNTRUE));
    }
    answer
}

/// What a call returns whose closure sets this flag: `watched!(asked, CALL)`.
macro_rules! watched {
    ($asked:ident, $call:expr) => {{
        let mut is_asked = false;
        let $asked = &mut is_asked;
        let answer = $call;
        $crate::checks::watch(is_asked, answer)
    }};
}

pub(crate) use watched;

/// Which error there is for a part that is missing.
pub fn missing() -> CoseError {
    MISSING
}

/// A cipher or a verifier that fails.
pub fn fails<T>(_first: &[u8], _second: &[u8]) -> Result<T, CoseError> {
    Err(MISMATCH)
}

/// What a call returns whose signer gives what it is handed: `echoed!(BUILDER.CALL(alloc, ..))`.
macro_rules! echoed {
    ($builder:ident.$call:ident($alloc:ident $(, $word:expr)*)) => {
        $crate::checks::watched!(
            asked,
            $builder.$call(
                $alloc,
                $($word,)*
                move |data| $crate::checks::join($alloc, data, b"", asked),
            )
        )
    };
}

pub(crate) use echoed;

/// What a call returns whose signer can't fail, gives `LONG`, and is due to be handed a structure:
/// `given!(BUILDER.CALL(alloc, ..), STRUCTURE)`.
macro_rules! given {
    ($builder:ident.$call:ident($alloc:ident $(, $word:expr)*), $structure:expr) => {{
        let made = $crate::checks::LONG.to_vec($alloc)?;
        $crate::checks::watched!(
            asked,
            $builder
                .$call(
                    $alloc,
                    $($word,)*
                    move |data| $crate::checks::give(made, data == $structure, asked),
                )
                .map_err(Fault::Cose)
        )
    }};
}

pub(crate) use given;

/// What a call returns whose verifier is `equal`: `verified!(MESSAGE.CALL(alloc, ..))`.
macro_rules! verified {
    ($message:ident.$call:ident($($word:expr),*)) => {
        $crate::checks::watched!(
            asked,
            $message.$call(
                $($word,)*
                move |signature, data| $crate::checks::equal(signature, data, asked),
            )
        )
    };
}

pub(crate) use verified;

/// What is met first: a missing part, then a header that can't be written, and then the error of a
/// closure that fails.
pub fn order() -> [Option<Met>; 3] {
    [
        Some(Fault::Caller(MISSING)),
        Some(Fault::Cose(CoseError::DuplicateMapKey)),
        Some(Fault::Caller(MISMATCH)),
    ]
}

/// A call of a message whose part is missing, and whose protected header can't be written, meets
/// faults in that order: `in_order!(rt, MESSAGE.PART, CALL)`.
macro_rules! in_order {
    ($rt:ident, $message:ident.$part:ident, $call:expr) => {{
        let first = $call.err();
        $message.$part = Some(Vec::new($rt.alloc()));
        let second = $call.err();
        $message.protected.header.rest.clear();
        let third = $call.err();
        assert_eq!($rt; [first, second, third], $crate::checks::order());
    }};
}

pub(crate) use in_order;

/// A verifier that wants a signature or a tag that is what it covers, and tells that it was asked.
pub fn equal(signature: &[u8], data: &[u8], asked: &mut bool) -> Result<(), CoseError> {
    *asked = true;
    if signature == data {
        Ok(())
    } else {
        Err(MISMATCH)
    }
}

/// Whether that verifier wanted another signature.
pub fn is_mismatch(answer: Result<(), Met>) -> Result<bool, Met> {
    match answer {
        Ok(()) => Ok(false),
        Err(Fault::Caller(error)) => Ok(error == MISMATCH),
        Err(error) => Err(error),
    }
}

/// A closure that gives these bytes, and tells whether it was asked for what is due.
pub fn give(made: Vec<u8>, is_due: bool, asked: &mut bool) -> Vec<u8> {
    *asked = is_due;
    made
}

/// Two byte strings, one after the other: what a closure was handed, which tells that it was asked.
pub fn join(
    alloc: Global,
    first: &[u8],
    second: &[u8],
    asked: &mut bool,
) -> Result<Vec<u8>, CoseError> {
    *asked = true;
    let mut all = first.to_vec(alloc)?;
    all.extend_from_slice(second)?;
    Ok(all)
}
