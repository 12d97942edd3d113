//! Variants of ML-DSA.
use coset_labels::{CoseError, iana};

/// A variant of ML-DSA (FIPS 204, section 4).
#[derive(Debug, Clone, Copy, PartialEq, Eq, Hash)]
pub enum MlDsaVariant {
    /// ML-DSA-44.
    MlDsa44,
    /// ML-DSA-65.
    MlDsa65,
    /// ML-DSA-87.
    MlDsa87,
}

impl From<MlDsaVariant> for iana::Algorithm {
    ghost use Rattle.std.specs.Prelude.{◌≡◌};
    ghost use Rattle.coset_keys.specs.MlDsa.{algorithm_of};

    ghost from_gives = { λ variant algorithm. algorithm ≡ algorithm_of variant };

    fn from(variant: MlDsaVariant) -> iana::Algorithm {
        match variant {
            MlDsaVariant::MlDsa44 => iana::Algorithm::ML_DSA_44,
            MlDsaVariant::MlDsa65 => iana::Algorithm::ML_DSA_65,
            MlDsaVariant::MlDsa87 => iana::Algorithm::ML_DSA_87,
        }
    }
}

/// Another algorithm is `OutOfRangeIntegerValue`.
impl TryFrom<iana::Algorithm> for MlDsaVariant {
    type Error = CoseError;

    ghost use Rattle.std.specs.Prelude.{◌≡◌, ◌≢◌, MatchResult};
    ghost use Rattle.coset_labels.specs.declared.error.CoseError.TheVariants.{OutOfRangeIntegerValue};
    ghost use Rattle.coset_keys.specs.MlDsa.{algorithm_of};
    ghost use Rattle.coset_keys.specs.declared.ml_dsa.MlDsaVariant.{MlDsaVariant};

    ghost try_from_gives = { λ algorithm r. MatchResult r
        (λ variant. algorithm_of variant ≡ algorithm)
        (λ e. (e ≡ OutOfRangeIntegerValue)
        × ((variant : MlDsaVariant) → algorithm_of variant ≢ algorithm)) };

    fn try_from(algorithm: iana::Algorithm) -> Result<MlDsaVariant, CoseError> {
        match algorithm {
            iana::Algorithm::ML_DSA_44 => Ok(MlDsaVariant::MlDsa44),
            iana::Algorithm::ML_DSA_65 => Ok(MlDsaVariant::MlDsa65),
            iana::Algorithm::ML_DSA_87 => Ok(MlDsaVariant::MlDsa87),
            _ => Err(CoseError::OutOfRangeIntegerValue),
        }
    }
}
