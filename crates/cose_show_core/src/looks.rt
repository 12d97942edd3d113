//! Whether an input looks like text.
use cose_reasons::{TextKind, is_of_base64, is_of_hex};

/// How a PEM file begins.
const PEM: &[u8] = b"-----BEGIN";

/// How a JSON Web Token begins: with `{"` in base64.
const JWT: &[u8] = b"eyJ";

/// An input of fewer bytes doesn't look like text, unless it begins as a PEM file or JSON.
const LEAST: usize = 16;

/// So many bytes tell whether it is text.
const ENOUGH: usize = 65536;

/// What the bytes of an input have been so far.
#[derive(Debug, Clone, Copy, PartialEq, Eq)]
pub struct Looks {
    len: usize,
    /// Whether they begin as these do, as far as they go.
    is_pem: bool,
    is_jwt: bool,
    /// Whether all are of hex, of base64, of a token, or of text.
    is_hex: bool,
    is_base64: bool,
    is_token: bool,
    is_text: bool,
    /// The first byte that is no white space.
    first: Option<u8>,
}

impl Looks {
    /// No byte yet.
    pub fn new() -> Looks {
        Looks {
            len: 0,
            is_pem: true,
            is_jwt: true,
            is_hex: true,
            is_base64: true,
            is_token: true,
            is_text: true,
            first: None,
        }
    }

    /// What these bytes look like, if they look like text.
    pub fn of(bytes: &[u8]) -> Option<TextKind> {
        let mut looks = Looks::new();
        looks.take(bytes);
        looks.kind()
    }

    /// Takes more bytes.
    pub fn take(&mut self, bytes: &[u8]) {
        for byte in bytes {
            if !self.is_open() {
                return;
            }
            self.take_byte(*byte);
        }
    }

    fn take_byte(&mut self, byte: u8) {
        self.is_pem = self.is_pem && is_due(PEM, self.len, byte);
        self.is_jwt = self.is_jwt && is_due(JWT, self.len, byte);
        self.is_hex = self.is_hex && is_of_hex(byte);
        self.is_base64 = self.is_base64 && is_of_base64(byte);
        self.is_token = self.is_token && (is_of_base64(byte) || byte == b'.');
        self.is_text = is_of_text(byte);
        if self.first.is_none() && !byte.is_ascii_whitespace() {
            self.first = Some(byte);
        }
        self.len = self.len.saturating_add(1);
    }

    /// Whether it may be text, and there are too few bytes to say.
    pub fn is_open(self) -> bool {
        self.is_text && self.len < ENOUGH
    }

    /// What it looks like, if it looks like text.
    pub fn kind(self) -> Option<TextKind> {
        if !self.is_text {
            return None;
        }
        if self.is_pem && self.len >= PEM.len() {
            return Some(TextKind::Pem);
        }
        if matches!(self.first, Some(b'{' | b'[')) {
            return Some(TextKind::Json);
        }
        if self.len < LEAST {
            return None;
        }
        Some(self.kind_of_text())
    }

    fn kind_of_text(self) -> TextKind {
        if self.is_hex {
            TextKind::Hex
        } else if self.is_base64 {
            TextKind::Base64
        } else if self.is_jwt && self.is_token {
            TextKind::Jwt
        } else {
            TextKind::Other
        }
    }
}

/// Whether a byte at this place may be there in what begins so.
fn is_due(front: &[u8], at: usize, byte: u8) -> bool {
    match front.get(at) {
        Some(due) => byte == *due,
        None => true,
    }
}

/// Whether a byte is of text in ASCII.
fn is_of_text(byte: u8) -> bool {
    byte.is_ascii_graphic() || byte.is_ascii_whitespace()
}
