// The kinds of nodes, whose numbers are word 0.
ghost use Rattle.std.specs.Prelude.{◌≡◌};
ghost use Rattle.reader.specs.Kinds.{number_of_kind, container_kind, Decodes};

use super::tree::Kind;

#[derive(Clone, Copy, PartialEq, Eq)]
pub enum NodeKind {
    Object = 1,
    Array = 2,
    Tuple = 3,
    Text = 4,
    Bytes = 5,
    Integer = 6,
    Decimal = 7,
    False = 8,
    True = 9,
    Null = 10,
}

// A word that is no kind's number.
#[derive(Clone, Copy, PartialEq, Eq)]
pub struct UnknownKind(pub u32);

impl From<Kind> for NodeKind {
    ghost from_gives = { λ kind r. r ≡ container_kind kind };

    fn from(kind: Kind) -> NodeKind {
        match kind {
            Kind::Object => NodeKind::Object,
            Kind::Array => NodeKind::Array,
            Kind::Tuple => NodeKind::Tuple,
        }
    }
}

impl From<NodeKind> for u32 {
    ghost from_gives = { λ kind r. r ≡ number_of_kind kind };

    fn from(kind: NodeKind) -> u32 {
        kind as u32
    }
}

impl TryFrom<u32> for NodeKind {
    type Error = UnknownKind;

    ghost try_from_gives = { Decodes };

    fn try_from(word: u32) -> Result<NodeKind, UnknownKind> {
        match word {
            1 => Ok(NodeKind::Object),
            2 => Ok(NodeKind::Array),
            3 => Ok(NodeKind::Tuple),
            4 => Ok(NodeKind::Text),
            5 => Ok(NodeKind::Bytes),
            6 => Ok(NodeKind::Integer),
            7 => Ok(NodeKind::Decimal),
            8 => Ok(NodeKind::False),
            9 => Ok(NodeKind::True),
            10 => Ok(NodeKind::Null),
            _ => Err(UnknownKind(word)),
        }
    }
}
