// The type that the definition of a blit's stores speaks of.
use word::types::Pointer;

// A word that is stored, and where it goes.
#[derive(Clone, Copy)]
pub struct Store {
    pub to: Pointer,
    pub value: u16,
}
