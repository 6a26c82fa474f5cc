// An area blit: by blocks of rows where no source meets what D stored, else word by word.
#![tactic(auto)]

ghost use Rattle.std.specs.Prelude.{◌≡◌, true, ◌+◌, ◌*◌, ◌<◌, ◌≤◌};
ghost use Rattle.word.specs.Pointer.{pointer_end};
ghost use Rattle.area.specs.Flow.{state, nothing};
ghost use Rattle.area.specs.Rows.{area_blit};

use area::types::{Flow, Setup};
use block::types::Size;
use word::pointer::INDEX_END;

// A few words cost less one by one. Blocks want memory no longer than a pointer reaches.
fn worth_a_block(n: usize, words: u32) -> bool
    ensures { result ≡ true → n ≤ pointer_end }
{
    (n <= INDEX_END) & (6 < words)
}

// Set-up, size, strides and flow stay apart, here and below: the first three stand, and the flow alone changes.
// So many rows at a time as the test before it allows. Two words at least: one alone would be stored before the next is
// fetched.
pub fn area_blit(ram: &mut [u16], setup: Setup, width: u32, height: u32, flow: Flow) -> Flow
    requires { (setup.shifts.a < 16) × (setup.shifts.b < 16) × (1 ≤ width) × (width ≤ 64) × (1 ≤ height) × (height ≤ 1024)
        × (flow.pointers.a.word < pointer_end) × (flow.pointers.b.word < pointer_end)
        × (flow.pointers.c.word < pointer_end) × (flow.pointers.d.word < pointer_end)
        × (flow.pending ≡ nothing) × (flow.stored + height * 64 < 4294967232) }
    ensures { state ram.new result
        ≡ area_blit setup width height (state ram.old flow) }
{
    if worth_a_block(ram.len(), width * height) {
        let size = Size {
            width: width as usize,
            height: height as usize,
        };
        let far = apart::strides(setup, width);
        let most = apart::rows_at_once(ram.len(), setup, size, flow, far);
        if 2 <= most * size.width {
            return blocks::all::blocks(ram, setup, far, size, most, flow);
        }
        if by_word::smear::smears(ram.len(), setup, size, flow, far) {
            return by_word::smear::smear(ram, setup, size, flow, far);
        }
        return by_word::area_blit(ram, setup, width, height, flow);
    }
    by_word::area_blit(ram, setup, width, height, flow)
}
