//! What the headers of a question say of its key, as fields of a line.
ghost use Rattle.std.specs.Prelude.{◌≡◌, IfOk, string_bytes};
ghost use Rattle.cose_gate_core.specs.Lent.{subject_of};
ghost use Rattle.cose_rules.specs.Ruled.{algorithm_view};
ghost use Rattle.cose_gate_command.specs.Fields.{algorithm_field, fields_by};
ghost use Rattle.cose_gate_command.specs.Fields as spec;
ghost use Rattle.cose_gate_command.specs.Hex.{hex_field};

use cose_gate_core::About;
use cose_gate_records::{has_known_crit, key_id, key_layer};
use coset_labels::iana::EnumI64;
use coset_labels::{Algorithm, RegisteredLabelWithPrivate};
use std::alloc::{AllocError, Global};

/// Three fields, each with a space before it: `ALG=` and the number of the algorithm in the
/// protected header of the signer, if there is one, else of the message; `KID=` and the key id in
/// hex; `CRIT=-`, or `CRIT=unknown` if a critical label isn't 1, 2 or 4. `-` is for none, and the
/// algorithm `tstr` is named by a text string.
pub(crate) fn key_fields(alloc: Global, about: &About) -> Result<String, AllocError>
    ensures { IfOk result (λ fields.
        string_bytes fields ≡ spec.key_fields (subject_of about.now)) }
{
    let alg = &key_layer(about).protected.header.alg;
    fields_by(alloc, alg, key_id(about), has_known_crit(about))
}

/// The fields of this algorithm and this key id, and of whether each critical label is known.
fn fields_by(
    alloc: Global,
    alg: &Option<Algorithm>,
    key_id: &[u8],
    is_known: bool,
) -> Result<String, AllocError>
    ensures { IfOk result (λ fields. string_bytes fields
        ≡ fields_by (algorithm_view alg.now) key_id.now is_known) }
{
    let alg = algorithm_text(alloc, alg)?;
    let key_id = hex_text(alloc, key_id)?;
    let crit = if is_known { "-" } else { "unknown" };
    format!(in alloc; " ALG={alg} KID={key_id} CRIT={crit}")
}

/// The number of an algorithm; `-` if there is none, and `tstr` if it is named by a text string.
fn algorithm_text(alloc: Global, alg: &Option<Algorithm>) -> Result<String, AllocError>
    ensures { IfOk result (λ field.
        string_bytes field ≡ algorithm_field (algorithm_view alg.now)) }
{
    match alg {
        Some(RegisteredLabelWithPrivate::Assigned(entry)) => entry.to_i64().to_string(alloc),
        Some(RegisteredLabelWithPrivate::PrivateUse(number)) => number.to_string(alloc),
        Some(RegisteredLabelWithPrivate::Text(_)) => "tstr".to_string(alloc),
        None => "-".to_string(alloc),
    }
}

/// Bytes in hex; `-` if there are none.
fn hex_text(alloc: Global, bytes: &[u8]) -> Result<String, AllocError>
    ensures { IfOk result (λ field. string_bytes field ≡ hex_field bytes.now) }
{
    if bytes.is_empty() {
        return "-".to_string(alloc);
    }
    hex::encode(alloc, bytes)
}
