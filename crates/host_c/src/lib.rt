// The library that a C or Rust host links: each function of `host`, exported under its name with the promise that it has there.
#![tactic(auto)]

ghost use Rattle.std.specs.Prelude.{◌≡◌, get_or};
ghost use Rattle.definition.specs.Decide.{call, event, resume, deposit, fetch};
ghost use Rattle.definition.specs.World.{own, latch};
ghost use Rattle.definition.specs.Signed.{word_of};
ghost use Rattle.definition.specs.Image.{well_formed};
ghost use Rattle.definition.specs.Table.{table_step, start};
ghost use Rattle.definition.specs.Located.{locate, lent_by};
ghost use Rattle.layer.specs.Steps.{lent};
ghost use Rattle.host.specs.Answers.{located_words, Writes, WritesAlone, WritesOnly, answered};
ghost use Rattle.host.specs.Runs.{Runs};
ghost use Rattle.host.specs.Sizes.{sizes};

// A limit or a size by its place in `sizes`, for who has to know whether the library is the one that a host was compiled for; 0 at any other place.
#[unsafe(no_mangle)]
pub extern "C" fn mk_size(which: u32) -> u64
    ensures { result ≡ get_or sizes which 0 }
{
    host::mk_size(which)
}

// Whether a lent table is well formed: any words, of any length.
#[unsafe(no_mangle)]
pub extern "C" fn mk_table_well_formed(table: &[u32]) -> bool
    ensures { result ≡ well_formed table.now }
{
    host::mk_table_well_formed(table)
}

// Makes the table that of the fresh state of a board.
#[unsafe(no_mangle)]
pub extern "C" fn mk_start(table: &mut [u32], board: &[u32], out: &mut [u32]) -> bool
    ensures { WritesAlone (start board.now) table.old out.old result table.new out.new }
{
    host::mk_start(table, board, out)
}

// A call of a process: its class, and its four registers.
#[unsafe(no_mangle)]
pub extern "C" fn mk_call(
    table: &mut [u32],
    memory: &mut [u8],
    process: u32,
    class: u8,
    r0: u32,
    r1: u32,
    r2: u32,
    r3: u32,
    out: &mut [u32],
) -> bool
    ensures { Writes (table_step (own process (call class r0 r1 r2 r3))) table.old memory.old out.old result table.new memory.new out.new }
{
    host::mk_call(table, memory, process, class, r0, r1, r2, r3, out)
}

// A driver's event for a process's subscribe slot, with three arguments.
#[unsafe(no_mangle)]
pub extern "C" fn mk_event(
    table: &mut [u32],
    process: u32,
    driver: u32,
    slot: u32,
    argument0: u32,
    argument1: u32,
    argument2: u32,
    out: &mut [u32],
) -> bool
    ensures { WritesAlone (table_step (own process (event driver slot argument0 argument1 argument2))) table.old out.old result table.new out.new }
{
    host::mk_event(
        table, process, driver, slot, argument0, argument1, argument2, out,
    )
}

// A process that waits is asked again.
#[unsafe(no_mangle)]
pub extern "C" fn mk_resume(table: &mut [u32], process: u32, out: &mut [u32]) -> bool
    ensures { WritesAlone (table_step (own process resume)) table.old out.old result table.new out.new }
{
    host::mk_resume(table, process, out)
}

// A driver's bytes for a process's read-write buffer, from an offset in it on.
#[unsafe(no_mangle)]
pub extern "C" fn mk_deposit(
    table: &[u32],
    memory: &mut [u8],
    process: u32,
    driver: u32,
    slot: u32,
    offset: u32,
    bytes: &[u8],
    out: &mut [u32],
) -> bool
    ensures { Writes (table_step (own process (deposit driver slot offset bytes.now))) table.now memory.old out.old result table.now memory.new out.new }
{
    host::mk_deposit(table, memory, process, driver, slot, offset, bytes, out)
}

// Where the bytes of a process's read-only buffer lie, from an offset in it on: the host reads them there, and nothing is copied.
#[unsafe(no_mangle)]
pub extern "C" fn mk_fetch(
    table: &[u32],
    memory: &[u8],
    flash: &[u8],
    process: u32,
    driver: u32,
    slot: u32,
    offset: u32,
    length: u32,
    out: &mut [u32],
) -> bool
    ensures { WritesOnly (table_step (own process (fetch driver slot offset length))) table.now memory.now flash.now out.old result out.new }
{
    host::mk_fetch(
        table, memory, flash, process, driver, slot, offset, length, out,
    )
}

// A shared driver's value: a signed peak.
#[unsafe(no_mangle)]
pub extern "C" fn mk_latch(table: &mut [u32], driver: u32, peak: i32, out: &mut [u32]) -> bool
    ensures { WritesAlone (table_step (latch driver (word_of peak))) table.old out.old result table.new out.new }
{
    host::mk_latch(table, driver, peak, out)
}

// Where the buffer lies that a process holds in a slot of a driver. The class is that of the allow that lends it, 3 or 4.
#[unsafe(no_mangle)]
pub extern "C" fn mk_area(
    table: &[u32],
    process: u32,
    class: u8,
    driver: u32,
    slot: u32,
    out: &mut [u32],
) -> bool
    ensures { answered (located_words (locate (lent_by class) process driver slot table.now)) out.old ≡ (result, out.new) }
{
    host::mk_area(table, process, class, driver, slot, out)
}

// The run over a trace from a place on, 0 for all of it; its lines go to the front of `lines`.
#[unsafe(no_mangle)]
pub extern "C" fn mk_replay(
    trace: &[u8],
    at: usize,
    table: &mut [u32],
    memory: &mut [u8],
    flash: &[u8],
    lines: &mut [u8],
    out: &mut [u64],
) -> bool
    ensures { Runs trace.now (lent table.old memory.old flash.now) at lines.old out.old result (lent table.new memory.new flash.now) lines.new out.new }
{
    host::mk_replay(trace, at, table, memory, flash, lines, out)
}
