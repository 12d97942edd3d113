//! What items are in a message, as far as that says what the labels of its maps are.
use ciborium_ll::Header;

/// The tag of a CBOR Web Token (RFC 8392, section 6).
pub const CWT: u64 = 61;

/// The tag of self-described CBOR (RFC 8949, section 3.4.6).
pub const SELF_DESCRIBED: u64 = 55799;

/// What an item is in a message, as far as that says what the labels of its maps are.
#[derive(Debug, Clone, Copy, PartialEq, Eq)]
pub enum Role {
    /// Nothing is around it but tags that may be around a message.
    Top,
    /// What is in the tag of a message: an array, and at this place in it a list of signatures or
    /// recipients.
    Message(Option<usize>),
    /// Such a list.
    List,
    /// One of them.
    One,
    /// A protected header.
    Protected,
    /// The map of a header.
    Header,
    /// What is in tag 24: a byte string that holds an item (RFC 8949, section 3.4.5.1).
    Encoded,
    /// Anything else.
    Plain,
}

/// What an open item holds.
#[derive(Debug, Clone, Copy, PartialEq, Eq)]
pub enum Inside {
    /// Items that are each this.
    Each(Role),
    /// The parts of a message, or of a signature or recipient.
    Parts(Option<usize>),
}

impl Inside {
    /// What the item is that comes after so many.
    pub fn role_of(self, count: usize) -> Role {
        match self {
            Inside::Each(role) => role,
            Inside::Parts(_) if count == 0 => Role::Protected,
            Inside::Parts(_) if count == 1 => Role::Header,
            Inside::Parts(Some(list)) if count == list => Role::List,
            Inside::Parts(_) => Role::Plain,
        }
    }
}

/// What is in an item that begins with this head.
pub fn inside_of(header: Header, role: Role) -> Inside {
    match (header, role) {
        (Header::Tag(CWT | SELF_DESCRIBED), Role::Top) => Inside::Each(Role::Top),
        (Header::Tag(16..=18), Role::Top) => Inside::Each(Role::Message(None)),
        (Header::Tag(96 | 98), Role::Top) => Inside::Each(Role::Message(Some(3))),
        (Header::Tag(97), Role::Top) => Inside::Each(Role::Message(Some(4))),
        (Header::Tag(24), _) => Inside::Each(Role::Encoded),
        (Header::Array(_), Role::Message(list)) => Inside::Parts(list),
        (Header::Array(_), Role::List) => Inside::Each(Role::One),
        (Header::Array(_), Role::One) => Inside::Parts(None),
        _ => Inside::Each(Role::Plain),
    }
}

/// What the content of a byte string is.
pub fn content_role(role: Role) -> Role {
    match role {
        Role::Protected => Role::Header,
        _ => Role::Top,
    }
}
