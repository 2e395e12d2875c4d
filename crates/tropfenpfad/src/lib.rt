// Every entry point under its C name. Each has the contract of the function that it calls, and the parameters that C hands over.
#![tactic(auto)]

ghost use Rattle.std.specs.Prelude.{◌≡◌};
ghost use Rattle.video.specs.State.{fresh_state};
ghost use Rattle.video.specs.Answer.{address_answer, line_answer, line_contents, frame_answer, frame_contents, mapped_line_answer, mapped_line_contents, mapped_line_map, mapped_frame_answer, mapped_frame_contents, mapped_frame_map};
ghost use Rattle.bus.specs.Cycle.{read_answer, write_answer, write_contents, write_latches, written};
ghost use Rattle.bus.specs.Latch.{fresh_latches};
ghost use Rattle.bus.specs.Place.{decode_answer};
ghost use Rattle.compare.specs.Answer.{compare_answer, counts_left, cells_left};
ghost use Rattle.slips.specs.Slip.{IsSlipAnswer};
ghost use Rattle.trace.specs.List.{trace_answer, trace_contents, trace_cycles};

use bus::{Access, Decoded, Latches, Written};
use compare::Comparison;
use slips::Slip;
use trace::{Cycle, Traced};
use video::{Address, Painted, State};

#[unsafe(no_mangle)]
pub extern "C" fn tropfenpfad_fresh_state() -> State
    ensures { result ≡ fresh_state }
{
    video::fresh_state()
}

#[unsafe(no_mangle)]
pub extern "C" fn tropfenpfad_screen_address(
    profile: u8,
    line: usize,
    column: usize,
    mode: u8,
) -> Address
    ensures { result ≡ address_answer profile line column mode }
{
    video::screen_address(profile, line, column, mode)
}

#[unsafe(no_mangle)]
pub extern "C" fn tropfenpfad_paint_line(
    memory: &[u8],
    state: State,
    line: usize,
    output: &mut [u8],
) -> Painted
    ensures value { result ≡ line_answer memory.now state line output.old }
    ensures output_after { output.new ≡ line_contents memory.now state line output.old }
{
    video::paint_line(memory, state, line, output)
}

#[unsafe(no_mangle)]
pub extern "C" fn tropfenpfad_paint_frame(memory: &[u8], state: State, frame: &mut [u8]) -> Painted
    ensures value { result ≡ frame_answer memory.now state frame.old }
    ensures frame_after { frame.new ≡ frame_contents memory.now state frame.old }
{
    video::paint_frame(memory, state, frame)
}

#[unsafe(no_mangle)]
pub extern "C" fn tropfenpfad_paint_line_mapped(
    memory: &[u8],
    state: State,
    line: usize,
    output: &mut [u8],
    map: &mut [u8],
) -> Painted
    ensures value { result ≡ mapped_line_answer memory.now state line output.old map.old }
    ensures output_after { output.new ≡ mapped_line_contents memory.now state line output.old map.old }
    ensures map_after { map.new ≡ mapped_line_map memory.now state line output.old map.old }
{
    video::paint_line_mapped(memory, state, line, output, map)
}

#[unsafe(no_mangle)]
pub extern "C" fn tropfenpfad_paint_frame_mapped(
    memory: &[u8],
    state: State,
    frame: &mut [u8],
    map: &mut [u8],
) -> Painted
    ensures value { result ≡ mapped_frame_answer memory.now state frame.old map.old }
    ensures frame_after { frame.new ≡ mapped_frame_contents memory.now state frame.old map.old }
    ensures map_after { map.new ≡ mapped_frame_map memory.now state frame.old map.old }
{
    video::paint_frame_mapped(memory, state, frame, map)
}

#[unsafe(no_mangle)]
pub extern "C" fn tropfenpfad_fresh_latches() -> Latches
    ensures { result ≡ fresh_latches }
{
    bus::fresh_latches()
}

#[unsafe(no_mangle)]
pub extern "C" fn tropfenpfad_decode(profile: u8, latches: Latches, address: u16) -> Decoded
    ensures { result ≡ decode_answer profile latches address }
{
    bus::decode(profile, latches, address)
}

#[unsafe(no_mangle)]
pub extern "C" fn tropfenpfad_read(
    memory: &[u8],
    profile: u8,
    latches: Latches,
    address: u16,
) -> Access
    ensures { result ≡ read_answer memory.now profile latches address }
{
    bus::read(memory, profile, latches, address)
}

#[unsafe(no_mangle)]
pub extern "C" fn tropfenpfad_write(
    memory: &mut [u8],
    profile: u8,
    latches: Latches,
    address: u16,
    byte: u8,
) -> Written
    ensures value { result ≡ written (write_answer memory.old profile latches address) (write_latches memory.old profile latches address byte) }
    ensures memory_after { memory.new ≡ write_contents memory.old profile latches address byte }
{
    bus::write(memory, profile, latches, address, byte)
}

#[unsafe(no_mangle)]
pub extern "C" fn tropfenpfad_write_in_place(
    memory: &mut [u8],
    profile: u8,
    latches: &mut Latches,
    address: u16,
    byte: u8,
) -> Access
    ensures value { result ≡ write_answer memory.old profile latches.old address }
    ensures memory_after { memory.new ≡ write_contents memory.old profile latches.old address byte }
    ensures latches_after { latches.new ≡ write_latches memory.old profile latches.old address byte }
{
    bus::write_in_place(memory, profile, latches, address, byte)
}

#[unsafe(no_mangle)]
pub extern "C" fn tropfenpfad_trace(
    memory: &mut [u8],
    profile: u8,
    latches: Latches,
    cycles: &mut [Cycle],
) -> Traced
    ensures value { result ≡ trace_answer memory.old profile latches cycles.old }
    ensures memory_after { memory.new ≡ trace_contents memory.old profile latches cycles.old }
    ensures cycles_after { cycles.new ≡ trace_cycles memory.old profile latches cycles.old }
{
    trace::trace(memory, profile, latches, cycles)
}

#[unsafe(no_mangle)]
pub extern "C" fn tropfenpfad_compare(
    first: &[u8],
    second: &[u8],
    line_counts: &mut [u16],
    cells: &mut [u16],
) -> Comparison
    ensures value { result ≡ compare_answer first.now second.now line_counts.old cells.old }
    ensures line_counts_after { line_counts.new ≡ counts_left first.now second.now line_counts.old cells.old }
    ensures cells_after { cells.new ≡ cells_left first.now second.now line_counts.old cells.old }
{
    compare::compare(first, second, line_counts, cells)
}

#[unsafe(no_mangle)]
pub extern "C" fn tropfenpfad_find_slip(reference: &[u8], grabbed: &[u8]) -> Slip
    ensures { IsSlipAnswer reference.now grabbed.now result }
{
    slips::find_slip(reference, grabbed)
}
