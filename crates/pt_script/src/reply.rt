use std::marker::Model;

/// What is written for a command.
#[derive(Drop)]
pub struct Reply {
    bytes: Vec<u8>,
    ends: bool,
}

impl Model for Reply {
    ghost use Rattle.pt_script.specs.State.{Answer};

    ghost Value = { Answer };

    ghost view = { λ r. record { bytes = r.bytes.items; ends = r.ends } };
}

impl Reply {
    ghost use Rattle.std.specs.Prelude.{◌≡◌};

    pub(crate) fn new(bytes: Vec<u8>, ends: bool) -> Reply
        ensures { result ≡ record { bytes = bytes.items; ends = ends } }
    {
        Reply { bytes, ends }
    }

    /// The bytes of the reply, with the end of each of its lines.
    pub fn bytes(&self) -> &[u8]
        ensures { result.now ≡ self.now.bytes }
    {
        self.bytes.as_slice()
    }

    /// Whether the command ends the script.
    pub fn ends(&self) -> bool
        ensures { result ≡ self.now.ends }
    {
        self.ends
    }
}
