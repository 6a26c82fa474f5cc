// The types that the definitions of knowledge speak of.

// What is known of one register: its number, or nothing.
pub type Known = Option<u16>;

// What is known of the Blitter's 19 registers, by their places in the register file. COPCON, the colours and the zero flag
// aren't tracked.
#[derive(Clone, Copy)]
pub struct Knowledge {
    pub registers: [Known; 19],
}
