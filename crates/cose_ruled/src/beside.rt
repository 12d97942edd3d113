//! Bytes beside others that they are mostly the same as.
ghost use Rattle.std.specs.Prelude.{◌≡◌, ◌≤◌, ◌++◌, length, OnOk};
ghost use Rattle.cose_ruled.specs.Blocks as spec;

use cose_gate_records::{append, eight};
use std::alloc::AllocError;

/// How many bytes both begin with.
fn common_front(xs: &[u8], ys: &[u8]) -> usize
    ensures common { result ≡ spec.common_front xs.now ys.now }
    ensures first { result ≤ length xs.now }
    ensures second { result ≤ length ys.now }
{
    let mut count = 0;
    while count < xs.len() && count < ys.len() && xs[count] == ys[count] {
        count += 1;
    }
    count
}

/// How many bytes both end with.
fn common_back(xs: &[u8], ys: &[u8]) -> usize
    ensures common { result ≡ spec.common_back xs.now ys.now }
    ensures first { result ≤ length xs.now }
    ensures second { result ≤ length ys.now }
{
    let mut count = 0;
    while count < xs.len()
        && count < ys.len()
        && xs[xs.len() - 1 - count] == ys[ys.len() - 1 - count]
    {
        count += 1;
    }
    count
}

/// Appends what these bytes have beside a base: what both begin and end with is left out.
pub(crate) fn append_beside(
    text: &mut Vec<u8>,
    base: &[u8],
    covered: &[u8],
) -> Result<(), AllocError>
    ensures { OnOk result («text».new.items
        ≡ «text».old.items ++ spec.beside base.now covered.now) }
{
    let front = common_front(base, covered);
    let rest = &covered[front..];
    let back = common_back(&base[front..], rest);
    text.extend_from_slice(&eight(front))?;
    text.extend_from_slice(&eight(base.len() - back))?;
    append(text, &rest[..rest.len() - back])
}
