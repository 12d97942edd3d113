//! Tests of `cbor_diag`: items of many levels.

mod deep;
