// What is to be copied.
use objects::types::ObjectType;

#[derive(Clone, Copy, Debug, PartialEq, Eq)]
pub struct Source {
    pub kind: ObjectType,
    pub size: usize,
}
