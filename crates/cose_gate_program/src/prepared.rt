//! A secret prepared for many tags.
ghost use Rattle.std.specs.Prelude.{◌≡◌, []};
ghost use Rattle.cose_hmac.specs.Once.{holds-prop};
ghost use Rattle.cose_hmac.specs.View.{Holds};

use cose_hmac::HmacSha256;

/// A secret, and an HMAC under it which was fed nothing yet.
#[derive(Drop)]
pub(crate) struct PreparedSecret<'a> {
    pub(crate) secret: &'a [u8],
    mac: HmacSha256,
    ghost begun: { Holds mac secret.now [] } by { holds-prop mac secret.now [] },
}

impl<'a> PreparedSecret<'a> {
    /// Hashes the secret once.
    pub(crate) fn new(secret: &'a [u8]) -> PreparedSecret<'a>
        ensures { result.secret.now ≡ secret.now }
    {
        PreparedSecret {
            secret,
            mac: HmacSha256::new(secret),
        }
    }

    /// An HMAC under the secret, which was fed nothing yet.
    pub(crate) fn mac(&self) -> HmacSha256
        ensures { Holds result self.now.secret.now [] }
    {
        match self.mac.clone() {
            Ok(mac) => mac,
            Err(_) => HmacSha256::new(self.secret),
        }
    }
}
