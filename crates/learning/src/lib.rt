// What a step does to the folder's knowledge.
#![tactic(auto)]

ghost use Rattle.std.specs.Prelude.{◌≡◌, ◌<◌};
ghost use Rattle.file.specs.Places.{file_length, pointer_a, pointer_b, pointer_c, pointer_d};
ghost use Rattle.learning.specs.Learn.{written, may_use, forget_pointer, forget_source, forget_used};
ghost use Rattle.learning.specs.Learn.{forgotten, moved_d};

use knowledge::types::Knowledge;
use word::types::{Pointer, Uses};

// A register write makes it known.
#[tactic(auto, unfolding(crate::specs::Learn::written))]
pub fn written(known: &mut Knowledge, place: u32, value: u16)
    ensures { known.new.registers ≡ written place value known.old.registers }
{
    known.put(place, Some(file::kept(place, value)));
}

#[tactic(auto, unfolding(crate::specs::Learn::may_use))]
fn may_use(known: &Knowledge) -> Uses
    ensures { result ≡ may_use known.now.registers }
{
    match known.at(file::CONTROL_0) {
        Some(number) => word::control::uses(number),
        None => Uses {
            a: true,
            b: true,
            c: true,
            d: true,
        },
    }
}

#[tactic(auto, unfolding(crate::specs::Learn::forget_pointer))]
fn forget_pointer(known: &mut Knowledge, used: bool, place: u32)
    requires { place < file_length }
    ensures { known.new.registers ≡ forget_pointer used place known.old.registers }
{
    if used {
        known.put(place, None);
        known.put(place + 1, None);
    }
}

#[tactic(auto, unfolding(crate::specs::Learn::forget_source))]
fn forget_source(known: &mut Knowledge, used: bool, place: u32)
    ensures { known.new.registers ≡ forget_source used place known.old.registers }
{
    if used {
        known.put(place, None);
    }
}

fn forget_pointers(known: &mut Knowledge, uses: Uses)
    ensures { known.new.registers
        ≡ forget_pointer uses.d pointer_d
        (forget_pointer uses.c pointer_c
        (forget_pointer uses.b pointer_b
        (forget_pointer uses.a pointer_a known.old.registers))) }
{
    forget_pointer(known, uses.a, file::POINTER_A);
    forget_pointer(known, uses.b, file::POINTER_B);
    forget_pointer(known, uses.c, file::POINTER_C);
    forget_pointer(known, uses.d, file::POINTER_D);
}

#[tactic(auto, unfolding(crate::specs::Learn::forget_used))]
fn forget_used(known: &mut Knowledge, uses: Uses)
    ensures { known.new.registers ≡ forget_used uses known.old.registers }
{
    forget_pointers(known, uses);
    forget_source(known, uses.a, file::SOURCE_A);
    forget_source(known, uses.b, file::SOURCE_B);
    forget_source(known, uses.c, file::SOURCE_C);
}

// After a kept 058.
#[tactic(auto, unfolding(crate::specs::Learn::forgotten))]
pub fn forgotten(known: &mut Knowledge)
    ensures { known.new.registers ≡ forgotten known.old.registers }
{
    let uses = may_use(known);
    forget_used(known, uses);
}

// After a settled 058, with the final D pointer.
#[tactic(auto, unfolding(crate::specs::Learn::moved_d))]
pub fn moved_d(known: &mut Knowledge, pointer: Pointer)
    ensures { known.new.registers ≡ moved_d pointer known.old.registers }
{
    known.put(file::POINTER_D, Some(pointer.high()));
    known.put(file::POINTER_D + 1, Some(pointer.low()));
}
