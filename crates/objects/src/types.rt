// The type of an object, and the byte that says it.
ghost use Rattle.std.specs.Prelude.{◌≡◌};
ghost use Rattle.medium.specs.Refusal.{answer_of};
ghost use Rattle.objects.specs.Types.{type_byte, type_of, type_answer, object_type_of};

use medium::refusal::Refusal;

#[derive(Clone, Copy, Debug, PartialEq, Eq)]
pub enum ObjectType {
    FileMetadata,
    FileData,
    FileName,
}

impl ObjectType {
    pub const FILE_METADATA: u8 = 0x8F;

    pub const FILE_DATA: u8 = 0x8E;

    pub const FILE_NAME: u8 = 0x8D;

    pub const FREE: u8 = 0xFF;

    // What a type byte says: none where no object is there.
    #[tactic(auto, unfolding(crate::specs::Types::type_of))]
    pub fn parse(b: u8) -> Result<Option<ObjectType>, Refusal>
        ensures { type_answer result ≡ type_of b }
    {
        match b {
            Self::FILE_METADATA => Ok(Some(ObjectType::FileMetadata)),
            Self::FILE_DATA => Ok(Some(ObjectType::FileData)),
            Self::FILE_NAME => Ok(Some(ObjectType::FileName)),
            Self::FREE => Ok(None),
            _ => Err(Refusal::FsCorrupted),
        }
    }
}

// The type that a caller gives as a whole number; 4 where it is none of the three.
impl TryFrom<u32> for ObjectType {
    type Error = Refusal;

    ghost try_from_gives = { λ n r. answer_of r ≡ object_type_of n };

    #[tactic(auto, unfolding(crate::specs::Types::object_type_of))]
    fn try_from(n: u32) -> Result<Self, Refusal> {
        if 255 < n {
            return Err(Refusal::InvalidOperation);
        }
        match ObjectType::parse(n as u8) {
            Ok(Some(t)) => Ok(t),
            Ok(None) => Err(Refusal::InvalidOperation),
            Err(_) => Err(Refusal::InvalidOperation),
        }
    }
}

impl From<ObjectType> for u8 {
    ghost from_gives = { λ t b. b ≡ type_byte t };

    fn from(t: ObjectType) -> u8 {
        match t {
            ObjectType::FileMetadata => ObjectType::FILE_METADATA,
            ObjectType::FileData => ObjectType::FILE_DATA,
            ObjectType::FileName => ObjectType::FILE_NAME,
        }
    }
}
