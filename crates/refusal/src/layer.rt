// Where a fault was found.
ghost use Rattle.std.specs.Prelude.{◌≡◌, Some};
ghost use Rattle.refusal.specs.Refusals.{layer_name};

use std::fmt;

/// Where a fault was found.
#[derive(Clone, Copy, PartialEq, Eq, Debug)]
pub enum Layer {
    Unit,
    Frame,
    Header,
    Packet,
    Log,
    Text,
}

impl Layer {
    /// The layer's name in small letters.
    pub fn name(self) -> &'static str
        ensures { result.now ≡ layer_name self }
    {
        match self {
            Layer::Unit => "unit",
            Layer::Frame => "frame",
            Layer::Header => "header",
            Layer::Packet => "packet",
            Layer::Log => "log",
            Layer::Text => "text",
        }
    }
}

impl fmt::Display for Layer {
    ghost output = { λ layer. Some (layer_name layer) };

    fn fmt<W: fmt::Write>(&self, f: &mut fmt::Formatter<W>) -> fmt::Result {
        f.write_str(self.name())
    }
}
