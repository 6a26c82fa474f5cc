// What is proved of the card's definitions; each function has its theorem as its contract, and does nothing.
#![tactic(auto)]

ghost use Rattle.card_facts.specs.KeysAreRegisters.{KeysAreRegisters};
ghost use Rattle.card_facts.specs.FirstBytesDecide.{FirstBytesDecide};
ghost use Rattle.card_facts.specs.TextFits.{TextFits};

pub fn keys_are_registers()
    ensures { KeysAreRegisters }
{}

pub fn first_bytes_decide()
    ensures { FirstBytesDecide }
{}

pub fn text_fits()
    ensures { TextFits }
{}
