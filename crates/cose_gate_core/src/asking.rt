//! Asks a judge about one message. It is fed what a signature or tag covers piece by piece, from
//! where the pieces lie: no structure is built.
ghost use Rattle.std.specs.Prelude.{◌≡◌, ◌++◌, ℕ, List, OnOk, OnErr, IfOk, [], ◌∷◌, option_map};
ghost use Rattle.std.specs.List.{flat_map};
ghost use Rattle.coset_headers.specs.View.{protected_view};
ghost use Rattle.coset_maced.specs.PartsWritten.{content_bytes};
ghost use Rattle.coset_base.specs.Structure.{byte_string};
ghost use Rattle.cose_gate_core.specs.Lent.{subject_of, asked_alone};
ghost use Rattle.cose_gate_core.specs.Questions.{Question, Subject};
ghost use Rattle.cose_gate_core.specs.Received.{received_bytes};
ghost use Rattle.cose_gate_core.specs.Asked.{first_no};

use crate::about::About;
use crate::judge::Judge;
use coset_base::bytes_title;
use coset_headers::ProtectedHeader;
use coset_recipients::content_bytes;
use std::alloc::AllocError;

/// The bytes of a protected header that were received; none of a header that was not.
pub fn received(protected: &ProtectedHeader) -> &[u8]
    ensures { result.now ≡ received_bytes (protected_view protected.now) }
{
    match &protected.original_data {
        Some(bytes) => bytes,
        None => &[],
    }
}

/// Feeds a byte string: its title and its bytes.
fn feed_string<J: Judge>(judge: &mut J, bytes: &[u8]) -> Result<(), AllocError>
    ensures holds { OnOk result ((subject : Subject) (fed : List ℕ) → J.holds judge.old subject fed
        → J.holds judge.new subject (fed ++ byte_string bytes.entry)) }
    ensures told { J.told judge.new ≡ J.told judge.old }
    ensures who { J.who judge.new ≡ J.who judge.old }
{
    judge.feed(bytes_title(bytes.len()).as_slice())?;
    judge.feed(bytes)
}

/// Feeds byte strings, one after another.
fn feed_strings<J: Judge>(judge: &mut J, strings: &[&[u8]]) -> Result<(), AllocError>
    ensures holds { OnOk result ((subject : Subject) (fed : List ℕ) → J.holds judge.old subject fed
        → J.holds judge.new subject (fed ++ flat_map byte_string strings.now)) }
    ensures told { J.told judge.new ≡ J.told judge.old }
    ensures who { J.who judge.new ≡ J.who judge.old }
{
    for string in strings {
        feed_string(judge, string)?;
    }
    Ok(())
}

/// Asks one question. What is covered begins with the prefix, and these byte strings follow.
pub fn ask<J: Judge>(
    judge: &mut J,
    about: &About,
    prefix: &[u8],
    strings: &[&[u8]],
    signature: &[u8],
) -> Result<bool, AllocError>
    ensures answer { IfOk result (λ yes. yes ≡ J.yes (J.who judge.old) (record {
      subject = subject_of about.now;
      covered = prefix.now ++ flat_map byte_string strings.now;
      signature = signature.now;
    })) }
    ensures told { OnOk result (J.told judge.new ≡ J.decided (J.told judge.old) (record {
      subject = subject_of about.now;
      covered = prefix.now ++ flat_map byte_string strings.now;
      signature = signature.now;
    })) }
    ensures err { OnErr result (J.told judge.new ≡ J.told judge.old) }
    ensures who { J.who judge.new ≡ J.who judge.old }
{
    judge.begin(about)?;
    judge.feed(prefix)?;
    feed_strings(judge, strings)?;
    Ok(judge.decide(signature))
}

/// Asks the one question about a message without signers of its own, over what begins with the
/// prefix. The index of the first no, if there is one.
pub fn ask_alone<'a, J: Judge>(
    judge: &mut J,
    about: &About<'a>,
    prefix: &[u8],
    aad: &'a [u8],
    payload: &'a Option<Vec<u8>>,
    signature: &[u8],
) -> Result<Option<usize>, AllocError>
    ensures answer { IfOk result (λ no. no ≡ first_no (J.yes (J.who judge.old))
        (asked_alone about.now prefix.now aad.now
        (content_bytes (option_map (λ v. v.items) payload.now)) signature.now ∷ [])) }
    ensures told { OnOk result (J.told judge.new
        ≡ J.decided (J.told judge.old) (asked_alone about.now prefix.now aad.now
        (content_bytes (option_map (λ v. v.items) payload.now)) signature.now)) }
    ensures err { OnErr result (J.told judge.new ≡ J.told judge.old) }
    ensures who { J.who judge.new ≡ J.who judge.old }
{
    let strings = [received(about.protected), aad, content_bytes(payload)];
    if ask(judge, about, prefix, &strings, signature)? {
        Ok(None)
    } else {
        Ok(Some(0))
    }
}
