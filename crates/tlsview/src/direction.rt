//! Who sent the bytes of a line.
ghost use Rattle.std.specs.Prelude.{◌≡◌, ◌∷◌, []};
ghost use Rattle.tlsview.specs.Direction.{direction_of, sign_of};
ghost use Rattle.tlsview.specs.Transition.{goes_to_server as is_to_server};

/// The direction of bytes.
#[derive(Clone, Copy, Debug, PartialEq, Eq)]
pub enum LineDirection {
    ToServer,
    FromServer,
}

impl LineDirection {
    /// The direction of a line's first byte.
    pub fn from_sign(sign: u8) -> Option<Self>
        ensures { result ≡ direction_of sign }
    {
        match sign {
            b'>' => Some(LineDirection::ToServer),
            b'<' => Some(LineDirection::FromServer),
            _ => None,
        }
    }

    /// What the printed lines of this direction begin with.
    pub fn mark(self) -> &'static str
        ensures { result.now ≡ sign_of self ∷ 32 ∷ [] }
    {
        match self {
            LineDirection::ToServer => "> ",
            LineDirection::FromServer => "< ",
        }
    }

    /// Whether the bytes went to the server.
    pub fn goes_to_server(self) -> bool
        ensures { result ≡ is_to_server self }
    {
        match self {
            LineDirection::ToServer => true,
            LineDirection::FromServer => false,
        }
    }
}
